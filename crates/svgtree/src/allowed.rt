//! Which element takes which attribute, in which form and within which range.

ghost use Rattle.std.specs.Prelude.{◌≡◌};
ghost use Rattle.std.specs.List.{list_all};
ghost use Rattle.svgtree.specs.Allowed.{row, takes_child, takes_attribute, within_magnitude, moderate, whole_id};

use crate::limits::{MAX_ID, MAX_MAGNITUDE};
use element::{Attribute, FromValue, Kind, Role, Value, Word};
use geom::{Aspect, Length, Matrix, Rect};
use record::is_good_opacity;

/// Whether an element of this kind, with a child or without, takes a further child.
pub fn takes_child(kind: Kind, has_child: bool) -> bool
    ensures { result ≡ takes_child kind has_child }
{
    match kind.role() {
        Role::Svg | Role::G | Role::Symbol | Role::Other => true,
        Role::Use => !has_child,
        Role::Leaf => false,
    }
}

/// Whether the root, or an element of this kind that is not the root, takes the attribute.
pub fn takes(is_root: bool, kind: Kind, attribute: Attribute) -> bool
    ensures { result ≡ takes_attribute is_root kind attribute }
{
    let role = kind.role();
    match attribute {
        Attribute::Id | Attribute::Shown | Attribute::Opacity => true,
        Attribute::Matrix => !is_root && role != Role::Symbol,
        Attribute::X | Attribute::Y => !is_root && matches!(role, Role::Svg | Role::Use),
        Attribute::Width | Attribute::Height => is_root || matches!(role, Role::Svg | Role::Use),
        Attribute::ViewBox | Attribute::Aspect | Attribute::Overflow => {
            is_root || matches!(role, Role::Svg | Role::Symbol)
        }
    }
}

/// Whether the value has the attribute's form.
pub fn has_form(attribute: Attribute, value: Value) -> bool
    ensures { result ≡ (row attribute).form value }
{
    match attribute {
        Attribute::Id | Attribute::Opacity => f32::from_value(value).is_some(),
        Attribute::Shown | Attribute::Overflow => Word::from_value(value).is_some(),
        Attribute::Matrix => Matrix::from_value(value).is_some(),
        Attribute::X | Attribute::Y | Attribute::Width | Attribute::Height => {
            Length::from_value(value).is_some()
        }
        Attribute::ViewBox => Rect::from_value(value).is_some(),
        Attribute::Aspect => Aspect::from_value(value).is_some(),
    }
}

/// Whether a value of the attribute's form is in the attribute's range.
pub fn in_range(attribute: Attribute, value: Value) -> bool
    ensures { result ≡ (row attribute).range value }
{
    match attribute {
        Attribute::Id => f32::from_value(value).is_some_and(is_whole_id),
        Attribute::Shown => matches!(Word::from_value(value), Some(Word::Yes | Word::No)),
        Attribute::Opacity => f32::from_value(value).is_some_and(is_good_opacity),
        Attribute::Matrix
        | Attribute::X
        | Attribute::Y
        | Attribute::Width
        | Attribute::Height
        | Attribute::ViewBox => is_moderate(value),
        Attribute::Aspect | Attribute::Overflow => true,
    }
}

// A whole number from 0 to the greatest id.
fn is_whole_id(x: f32) -> bool
    ensures { result ≡ whole_id x }
{
    0.0 <= x && x <= MAX_ID && x == x.trunc()
}

// Whether each float of the value is of a magnitude that is allowed; an infinity is not, nor is what is no number.
fn is_moderate(value: Value) -> bool
    ensures { result ≡ moderate value }
{
    match value {
        Value::Length { number, unit: _ } => has_magnitude(number),
        Value::Box { x, y, w, h } => have_magnitudes([x, y, w, h]),
        Value::Matrix { a, b, c, d, e, f } => have_magnitudes([a, b, c, d, e, f]),
        Value::Number(number) => has_magnitude(number),
        Value::Aspect { align: _, slice: _ } | Value::Word(_) => true,
    }
}

fn have_magnitudes<const N: usize>(floats: [f32; N]) -> bool
    ensures { result ≡ list_all within_magnitude floats.entry }
{
    floats.iter().all(|x| has_magnitude(*x))
}

#[tactic(auto, using(crate::proofs::Bounds::max_magnitude_is))]
fn has_magnitude(x: f32) -> bool
    ensures { result ≡ within_magnitude x }
{
    x.abs() <= MAX_MAGNITUDE
}
