//! The texts of lengths: a number with its unit right behind it.

ghost use Rattle.std.specs.Prelude.{◌≡◌, false, MatchOption};
ghost use Rattle.notation.specs.Lengths.{parts, a_length, WrittenLength, PartsFound};

use crate::name::unit_of;
use crate::number::number_of;
use geom::{Length, Unit};

// What stands before the name of a unit at the text's end, and that unit.
fn split_unit(text: &str) -> (&str, Unit)
    ensures { (result.0.now, result.1) ≡ parts text.now }
{
    if let Some(number) = text.strip_suffix('%') {
        return (number, Unit::Percent);
    }
    // Any other name has two letters.
    let Some((number, name)) = text.split_at_checked(text.len().saturating_sub(2)) else {
        return (text, Unit::None);
    };
    match unit_of(name) {
        Some(unit) => (number, unit),
        None => (text, Unit::None),
    }
}

/// The length that a text writes, if it writes one: a number with its unit right behind it, or a number alone.
#[tactic(auto, unfolding(crate::specs::Lengths::a_length))]
pub fn length_of(text: &str) -> Option<Length>
    ensures { MatchOption result (a_length text.now ≡ false) (λ l. WrittenLength text.now l) }
{
    let (number, unit) = split_unit(text);
    let number = number_of(number)?;
    Some(Length { number, unit })
}

/// A number's text with a unit's name behind it is read as that number and that unit, whichever they are.
#[tactic(auto, using(crate::proofs::Units::parts_found))]
pub fn units_are_told_apart()
    ensures { PartsFound }
{}
