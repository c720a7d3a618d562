//! Every refusal that a call of this project can answer, with its number and plain words.

#![tactic(auto)]

ghost use Rattle.std.specs.Prelude.{◌≡◌, Some};
ghost use Rattle.refusal.specs.Numbers.{number_of};
ghost use Rattle.refusal.specs.Order.{first_of, unless};
ghost use Rattle.refusal.specs.Words.{words_of};

use std::error::Error;
use std::fmt;

/// Why a call was refused. `number` gives the number that people and programs know it by.
#[derive(Clone, Copy, PartialEq, Eq, Debug)]
pub enum Refusal {
    /// The node was never added.
    UnknownNode,
    /// The parent takes no child, or no further one.
    ChildNotAllowed,
    /// The kind lacks the attribute, or the value has another form.
    AttributeNotAllowed,
    /// A value outside its range or not finite; a group or ruler that is not good; a bad root size at seal.
    BadValue,
    /// 4,096 nodes, or their memory is full.
    DocumentFull,
    /// The root has no valid size.
    InvalidSize,
    /// Level 49 of a document, or a 113th open group in a sink.
    TooDeep,
    /// A length, fit or matrix that the rules use is not finite.
    NotFinite,
    /// The work list is full.
    WorkListFull,
    /// The places pass the sink's limit.
    SinkFull,
    /// A sink's call out of turn.
    OutOfTurn,
    /// A face file whose trailer, record or nesting breaks the format.
    Damaged,
}

impl Refusal {
    /// The refusal's number, 1 to 12.
    pub fn number(self) -> u8
        ensures { result ≡ number_of self }
    {
        match self {
            Refusal::UnknownNode => 1,
            Refusal::ChildNotAllowed => 2,
            Refusal::AttributeNotAllowed => 3,
            Refusal::BadValue => 4,
            Refusal::DocumentFull => 5,
            Refusal::InvalidSize => 6,
            Refusal::TooDeep => 7,
            Refusal::NotFinite => 8,
            Refusal::WorkListFull => 9,
            Refusal::SinkFull => 10,
            Refusal::OutOfTurn => 11,
            Refusal::Damaged => 12,
        }
    }

    /// The refusal in plain words.
    pub fn words(self) -> &'static str
        ensures { result.now ≡ words_of self }
    {
        match self {
            Refusal::UnknownNode => "the node was never added",
            Refusal::ChildNotAllowed => "the parent takes no child, or no further one",
            Refusal::AttributeNotAllowed =>
                "the kind lacks the attribute, or the value has another form",
            Refusal::BadValue => "a value is outside its range or not finite",
            Refusal::DocumentFull => "the document is full",
            Refusal::InvalidSize => "the root has no valid size",
            Refusal::TooDeep => "nested too deep",
            Refusal::NotFinite => "a length, fit or matrix leaves the finite range",
            Refusal::WorkListFull => "the work list is full",
            Refusal::SinkFull => "the sink has no places left",
            Refusal::OutOfTurn => "the sink was called out of turn",
            Refusal::Damaged => "the face file is damaged",
        }
    }
}

impl fmt::Display for Refusal {
    ghost output = { λ r. Some (words_of r) };

    fn fmt<W: fmt::Write>(&self, f: &mut fmt::Formatter<W>) -> fmt::Result {
        f.write_str(self.words())
    }
}

impl Error for Refusal {}

/// The checks in their order, each a test that says whether it fails and the refusal that it then gives: refused by the
/// first that fails, and else passed.
pub fn first<E: Copy>(checks: &[(bool, E)]) -> Result<(), E>
    ensures { result ≡ unless (first_of checks.now) tt }
{
    for (fails, refusal) in checks {
        if *fails {
            return Err(*refusal);
        }
    }
    Ok(())
}
