//! The names of units, directions, alignments, kinds, attributes and forms, by their exact letters.

#![tactic(auto, using(crate::proofs::Naming::other_text))]

ghost use Rattle.std.specs.Prelude.{◌≡◌};
ghost use Rattle.notation.specs.Names.{named, units, directions, aligns, slices, kinds, attributes, forms};

use crate::form::Form;
use element::{Attribute, Kind};
use geom::{Align, Direction, Unit};

/// The unit of this name.
pub fn unit_of(name: &str) -> Option<Unit>
    ensures { result ≡ named units name.now }
{
    match name {
        "%" => Some(Unit::Percent),
        "px" => Some(Unit::Px),
        "em" => Some(Unit::Em),
        "ex" => Some(Unit::Ex),
        "in" => Some(Unit::In),
        "cm" => Some(Unit::Cm),
        "mm" => Some(Unit::Mm),
        "pt" => Some(Unit::Pt),
        "pc" => Some(Unit::Pc),
        _ => None,
    }
}

/// The direction of this name.
pub fn direction_of(name: &str) -> Option<Direction>
    ensures { result ≡ named directions name.now }
{
    match name {
        "across" => Some(Direction::Across),
        "down" => Some(Direction::Down),
        _ => None,
    }
}

/// The alignment of this name.
pub fn align_of(name: &str) -> Option<Align>
    ensures { result ≡ named aligns name.now }
{
    match name {
        "none" => Some(Align::None),
        "xMinYMin" => Some(Align::XMinYMin),
        "xMidYMin" => Some(Align::XMidYMin),
        "xMaxYMin" => Some(Align::XMaxYMin),
        "xMinYMid" => Some(Align::XMinYMid),
        "xMidYMid" => Some(Align::XMidYMid),
        "xMaxYMid" => Some(Align::XMaxYMid),
        "xMinYMax" => Some(Align::XMinYMax),
        "xMidYMax" => Some(Align::XMidYMax),
        "xMaxYMax" => Some(Align::XMaxYMax),
        _ => None,
    }
}

/// Whether a view box covers its viewport (slice) or lies within it (meet).
pub fn slice_of(name: &str) -> Option<bool>
    ensures { result ≡ named slices name.now }
{
    match name {
        "meet" => Some(false),
        "slice" => Some(true),
        _ => None,
    }
}

/// The kind of this name.
pub fn kind_of(name: &str) -> Option<Kind>
    ensures { result ≡ named kinds name.now }
{
    match name {
        "svg" => Some(Kind::Svg),
        "g" => Some(Kind::G),
        "use" => Some(Kind::Use),
        "symbol" => Some(Kind::Symbol),
        "rect" => Some(Kind::Rect),
        "circle" => Some(Kind::Circle),
        "ellipse" => Some(Kind::Ellipse),
        "line" => Some(Kind::Line),
        "polyline" => Some(Kind::Polyline),
        "polygon" => Some(Kind::Polygon),
        "path" => Some(Kind::Path),
        "other" => Some(Kind::Other),
        _ => None,
    }
}

/// The attribute of this name.
pub fn attribute_of(name: &str) -> Option<Attribute>
    ensures { result ≡ named attributes name.now }
{
    match name {
        "id" => Some(Attribute::Id),
        "shown" => Some(Attribute::Shown),
        "opacity" => Some(Attribute::Opacity),
        "matrix" => Some(Attribute::Matrix),
        "x" => Some(Attribute::X),
        "y" => Some(Attribute::Y),
        "width" => Some(Attribute::Width),
        "height" => Some(Attribute::Height),
        "viewBox" => Some(Attribute::ViewBox),
        "aspect" => Some(Attribute::Aspect),
        "overflow" => Some(Attribute::Overflow),
        _ => None,
    }
}

/// The form of this name.
pub fn form_of(name: &str) -> Option<Form>
    ensures { result ≡ named forms name.now }
{
    match name {
        "length" => Some(Form::Length),
        "box" => Some(Form::Box),
        "matrix" => Some(Form::Matrix),
        "aspect" => Some(Form::Aspect),
        "number" => Some(Form::Number),
        "word" => Some(Form::Word),
        _ => None,
    }
}
