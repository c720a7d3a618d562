//! What a line lacks that can't be read.

ghost use Rattle.std.specs.Prelude.{◌≡◌, Some};
ghost use Rattle.drawing.specs.Messages.{expected_words, unreadable_text};

use std::error::Error;
use std::fmt;

/// What a word of a line should have been.
#[derive(Clone, Copy, PartialEq, Eq, Debug)]
pub enum Expected {
    Command,
    Length,
    Direction,
    Number,
    Align,
    Slice,
    WholeNumber,
    Kind,
    Attribute,
    Form,
    Word,
    End,
    /// A line that is no UTF-8.
    Text,
}

impl Expected {
    /// What was expected, in plain words.
    pub fn words(self) -> &'static str
        ensures { result.now ≡ expected_words self }
    {
        match self {
            Expected::Command => "a command",
            Expected::Length => "a length",
            Expected::Direction => "across or down",
            Expected::Number => "a number",
            Expected::Align => "an alignment",
            Expected::Slice => "meet or slice",
            Expected::WholeNumber => "a whole number",
            Expected::Kind => "a kind",
            Expected::Attribute => "an attribute",
            Expected::Form => "a form",
            Expected::Word => "a word",
            Expected::End => "the end of the line",
            Expected::Text => "text in UTF-8",
        }
    }
}

impl fmt::Display for Expected {
    ghost output = { λ e. Some (expected_words e) };

    fn fmt<W: fmt::Write>(&self, f: &mut fmt::Formatter<W>) -> fmt::Result {
        f.write_str(self.words())
    }
}

impl Error for Expected {}

/// A line that can't be read: its number, and what was expected in it.
#[derive(Clone, Copy, PartialEq, Eq, Debug)]
pub struct Unreadable {
    pub line: u64,
    pub expected: Expected,
}

impl fmt::Display for Unreadable {
    ghost output = { λ u. Some (unreadable_text u) };

    fn fmt<W: fmt::Write>(&self, f: &mut fmt::Formatter<W>) -> fmt::Result {
        write!(f, "line {}: expected {}", self.line, self.expected)
    }
}

impl Error for Unreadable {}
