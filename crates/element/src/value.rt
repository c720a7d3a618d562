ghost use Rattle.std.specs.Prelude.{◌≡◌, ◌<◌};
ghost use Rattle.element.specs.Attributes.{place_of};
ghost use Rattle.element.specs.Roles.{role_of};

use crate::word::Word;
use geom::{Align, Unit};

/// The kind of an element: a container, a leaf, or other.
#[derive(Clone, Copy, PartialEq, Eq, Debug)]
pub enum Kind {
    Svg,
    G,
    Use,
    Symbol,
    Rect,
    Circle,
    Ellipse,
    Line,
    Polyline,
    Polygon,
    Path,
    Other,
}

/// What an element is to the rules of groups: the seven leaves are one.
#[derive(Clone, Copy, PartialEq, Eq, Debug)]
pub enum Role {
    Svg,
    G,
    Use,
    Symbol,
    Leaf,
    Other,
}

impl Kind {
    /// What an element of this kind is to the rules of groups.
    pub fn role(self) -> Role
        ensures { result ≡ role_of self }
    {
        match self {
            Kind::Svg => Role::Svg,
            Kind::G => Role::G,
            Kind::Use => Role::Use,
            Kind::Symbol => Role::Symbol,
            Kind::Rect
            | Kind::Circle
            | Kind::Ellipse
            | Kind::Line
            | Kind::Polyline
            | Kind::Polygon
            | Kind::Path => Role::Leaf,
            Kind::Other => Role::Other,
        }
    }
}

/// The names of attributes.
#[derive(Clone, Copy, PartialEq, Eq, Debug)]
pub enum Attribute {
    Id,
    Shown,
    Opacity,
    Matrix,
    X,
    Y,
    Width,
    Height,
    ViewBox,
    Aspect,
    Overflow,
}

/// How many attributes there are.
pub const ATTRIBUTES: usize = 11;

impl Attribute {
    /// Where the attribute's value stands among an element's attributes.
    pub fn place(self) -> usize
        ensures value { result ≡ place_of self }
        ensures within { result < 11 }
    {
        self as usize
    }
}

/// The value of an attribute, in one of six forms.
#[derive(Clone, Copy, PartialEq, Debug)]
pub enum Value {
    Length {
        number: f32,
        unit: Unit,
    },
    Box {
        x: f32,
        y: f32,
        w: f32,
        h: f32,
    },
    Matrix {
        a: f32,
        b: f32,
        c: f32,
        d: f32,
        e: f32,
        f: f32,
    },
    Aspect {
        align: Align,
        slice: bool,
    },
    Number(f32),
    Word(Word),
}
