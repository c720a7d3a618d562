//! Reading a line word by word.

#![tactic(auto, unfolding(crate::specs::Grammar::missing, crate::specs::Grammar::fits))]

ghost use Rattle.std.specs.Prelude.{◌≡◌, [], ◌∷◌, Some, None, IfOk, IfErr};
ghost use Rattle.std.specs.Fn.{FnOnceReturnsAt};
ghost use Rattle.drawing.specs.Grammar.{Part};
ghost use Rattle.drawing.specs.Values.{WordAt, NothingAt};
ghost use Rattle.notation.specs.Words.{first_word, past_word};
ghost use Rattle.drawing.specs.declared.expected.Expected.TheVariants as expected;

use crate::expected::Expected;
use element::{Word, word_of};
use notation::first_word;
use std::marker::Model;

/// What is left of a line, which clauses see. Each call reads what it is named for and leaves the rest.
#[derive(Drop)]
pub(crate) struct Words<'a> {
    pub(crate) rest: &'a str,
}

impl<'a> Model for Words<'a> {
    ghost use Rattle.std.specs.Prelude.{ℕ, List};

    ghost Value = { List ℕ };

    ghost view = { λ w. w.rest.now };
}

impl<'a> Words<'a> {
    /// The next word, empty where there is none.
    pub(crate) fn next(&mut self) -> &'a str
        ensures word { result.now ≡ first_word self.old }
        ensures rest { self.new ≡ past_word self.old }
    {
        let (word, rest) = first_word(self.rest);
        self.rest = rest;
        word
    }

    /// What the reading makes of the next word, or what is expected in its place.
    pub(crate) fn read<T, F: FnOnce(&str) -> Option<T>>(
        &mut self,
        reading: F,
        expected: Expected,
    ) -> Result<T, Expected>
        requires { F.IsAlwaysCallable reading }
        ensures ok { IfOk result (λ x. FnOnceReturnsAt F.FnOnce reading (first_word self.old) (Some x)) }
        ensures err { IfErr result (λ e. FnOnceReturnsAt F.FnOnce reading (first_word self.old) None × (e ≡ expected)) }
        ensures rest { self.new ≡ past_word self.old }
    {
        reading(self.next()).ok_or(expected)
    }

    pub(crate) fn word(&mut self) -> Result<Word, Expected>
        ensures { Part (expected.Word ∷ []) WordAt self.old self.new result }
    {
        let word = self.next();
        if word.is_empty() {
            Err(Expected::Word)
        } else {
            Ok(word_of(word))
        }
    }

    /// The end of the line: no further word.
    pub(crate) fn end(&mut self) -> Result<(), Expected>
        ensures { Part (expected.End ∷ []) NothingAt self.old self.new result }
    {
        if self.next().is_empty() {
            Ok(())
        } else {
            Err(Expected::End)
        }
    }
}
