ghost use Rattle.std.specs.Prelude.{◌≡◌};
ghost use Rattle.element.specs.Attributes.{value_of, held, bare, with_value, matrix_of, opacity_of, id_of, view_box_of, aspect_of, hidden, overflows};

use crate::form::FromValue;
use crate::value::{ATTRIBUTES, Attribute, Kind, Value};
use crate::word::Word;
use geom::{Aspect, Matrix, Rect};
use record::Id;
use std::num::saturating_f32_to_u16;

/// A kind and, for each attribute, its value or none.
#[derive(Clone, Copy)]
pub struct Element {
    pub kind: Kind,
    pub attributes: [Option<Value>; ATTRIBUTES],
}

impl Element {
    /// An element without attributes.
    pub fn new(kind: Kind) -> Element
        ensures { result ≡ bare kind }
    {
        Element {
            kind,
            attributes: [None; ATTRIBUTES],
        }
    }

    /// The element with this value of the attribute, or without one.
    pub fn with(self, attribute: Attribute, value: Option<Value>) -> Element
        ensures { result ≡ with_value self attribute value }
    {
        let mut attributes = self.attributes;
        attributes[attribute.place()] = value;
        Element { attributes, ..self }
    }

    /// The attribute's value, if it is set.
    #[tactic(auto, unfolding(crate::specs::Attributes::value_of))]
    pub fn value(&self, attribute: Attribute) -> Option<Value>
        ensures { result ≡ value_of self.now attribute }
    {
        self.attributes[attribute.place()]
    }

    /// What the attribute's value holds, if it is set and of this form.
    pub fn attribute<T: FromValue>(&self, attribute: Attribute) -> Option<T>
        ensures { result ≡ held T.held_in (value_of self.now attribute) }
    {
        T::from_value(self.value(attribute)?)
    }

    /// The element's own matrix, or the identity where none is set.
    pub fn matrix(&self) -> Matrix
        ensures { result ≡ matrix_of self.now }
    {
        self.attribute(Attribute::Matrix).unwrap_or_default()
    }

    /// The element's own opacity, or 1 where none is set.
    pub fn opacity(&self) -> f32
        ensures { result ≡ opacity_of self.now }
    {
        self.attribute(Attribute::Opacity).unwrap_or(1.0)
    }

    /// The element's id, or 0 where none is set.
    pub fn id(&self) -> Id
        ensures { result ≡ id_of self.now }
    {
        saturating_f32_to_u16(self.attribute(Attribute::Id).unwrap_or(0.0))
    }

    /// The view box's rectangle: one with a side that is not above 0 counts as absent.
    pub fn view_box(&self) -> Option<Rect>
        ensures { result ≡ view_box_of self.now }
    {
        self.attribute(Attribute::ViewBox)
            .filter(|rect: &Rect| rect.is_valid())
    }

    /// How the view box is fitted, or what holds where none is set.
    pub fn aspect(&self) -> Aspect
        ensures { result ≡ aspect_of self.now }
    {
        self.attribute(Attribute::Aspect).unwrap_or_default()
    }

    /// Whether its shown is "no".
    pub fn is_hidden(&self) -> bool
        ensures { result ≡ hidden self.now }
    {
        self.attribute(Attribute::Shown) == Some(Word::No)
    }

    /// Whether its overflow is "visible" or "auto".
    pub fn overflows(&self) -> bool
        ensures { result ≡ overflows self.now }
    {
        matches!(
            self.attribute(Attribute::Overflow),
            Some(Word::Visible | Word::Auto)
        )
    }
}
