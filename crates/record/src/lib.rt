//! The records of a picture: a group opens, a mark stands, a group closes.

#![tactic(auto)]

ghost use Rattle.std.specs.Prelude.{◌≡◌};
ghost use Rattle.record.specs.Good.{good_clip, good_opacity, good_group, good_mark, good_record};

use geom::{Matrix, Rect, Ruler};

/// The number type of ids and of leaves. 0 as an id is none.
pub type Id = u16;

/// What a group does to all it holds: its id, its matrix, its clip or none, and its opacity.
#[derive(Clone, Copy, PartialEq, Debug)]
pub struct Group {
    pub id: Id,
    pub matrix: Matrix,
    pub clip: Option<Rect>,
    pub opacity: f32,
}

/// A leaf of the document, by its number, and the ruler that its own lengths are measured with.
#[derive(Clone, Copy, PartialEq, Debug)]
pub struct Mark {
    pub leaf: Id,
    pub ruler: Ruler,
}

/// What a script says at one place, of whichever groups and marks: a group opens, a mark stands, a group closes.
#[derive(Clone, Copy, PartialEq, Debug)]
pub enum Event<G, M> {
    Open(G),
    Mark(M),
    Close,
}

/// One record of a script.
pub type Record = Event<Group, Mark>;

#[tactic(auto, unfolding(crate::specs::Good::good_clip))]
fn is_good_clip(clip: Option<Rect>) -> bool
    ensures { result ≡ good_clip clip }
{
    clip.is_none_or(|rect| rect.is_finite() && rect.is_valid())
}

/// Whether an opacity is from 0 to 1.
#[tactic(auto, unfolding(crate::specs::Good::good_opacity))]
pub fn is_good_opacity(opacity: f32) -> bool
    ensures { result ≡ good_opacity opacity }
{
    0.0 <= opacity && opacity <= 1.0
}

impl Group {
    /// Whether its numbers are finite, its opacity is from 0 to 1 and its clip's sides are above 0.
    #[tactic(auto, unfolding(crate::specs::Good::good_group))]
    pub fn is_good(self) -> bool
        ensures { result ≡ good_group self }
    {
        self.matrix.is_finite() && is_good_clip(self.clip) && is_good_opacity(self.opacity)
    }
}

impl Mark {
    /// Whether its ruler is finite.
    #[tactic(auto, unfolding(crate::specs::Good::good_mark))]
    pub fn is_good(self) -> bool
        ensures { result ≡ good_mark self }
    {
        self.ruler.is_finite()
    }
}

impl Record {
    /// Whether its group or mark is good.
    pub fn is_good(self) -> bool
        ensures { result ≡ good_record self }
    {
        match self {
            Record::Open(group) => group.is_good(),
            Record::Mark(mark) => mark.is_good(),
            Record::Close => true,
        }
    }
}
