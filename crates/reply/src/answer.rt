//! Answers and failures.

ghost use Rattle.std.specs.Prelude.{◌≡◌};
ghost use Rattle.reply.specs.Edits.{answer_of};

use drawing::Unreadable;
use geom::{Matrix, RootSize};
use refusal::Refusal;
use svgtree::Done;

/// What a command answers.
#[derive(Clone, Copy, PartialEq, Debug)]
pub enum Answer {
    Number(f32),
    Matrix(Matrix),
    Size(RootSize),
    /// The number of a node that was added.
    Node(u32),
    Done,
}

impl From<Done> for Answer {
    ghost from_gives = { λ done a. a ≡ answer_of done };

    fn from(done: Done) -> Answer {
        match done {
            Done::Added(node) => Answer::Node(node),
            Done::Edited => Answer::Done,
        }
    }
}

/// Why a line has no answer: its command was refused, or the line can't be read.
#[derive(Clone, Copy, PartialEq, Debug)]
pub enum Failure {
    Refused(Refusal),
    Unreadable(Unreadable),
}
