//! The six forms of a value: what a value of a form holds, and the value that holds it.

ghost use Rattle.std.specs.Prelude.{◌≡◌, Option};
ghost use Rattle.element.specs.Forms.{as_length, as_rect, as_matrix, as_aspect, as_number, as_word};
ghost use Rattle.element.specs.declared.value.Value.{Value};
ghost use Rattle.element.specs.declared.value.Value.TheVariants as form;

use crate::value::Value;
use crate::word::Word;
use geom::{Aspect, Length, Matrix, Rect};

/// What a value of one form holds.
pub trait FromValue {
    ghost held_in: { Value → Option Self };

    /// What the value holds, if it is of this form.
    fn from_value(value: Value) -> Option<Self>
        ensures { result ≡ held_in value };
}

impl FromValue for Length {
    ghost held_in = { as_length };

    #[tactic(auto, unfolding(crate::specs::Forms::as_length))]
    fn from_value(value: Value) -> Option<Length> {
        match value {
            Value::Length { number, unit } => Some(Length { number, unit }),
            _ => None,
        }
    }
}

impl From<Length> for Value {
    ghost from_gives = { λ l v. v ≡ form.Length l.number l.unit };

    fn from(length: Length) -> Value {
        Value::Length {
            number: length.number,
            unit: length.unit,
        }
    }
}

impl FromValue for Rect {
    ghost held_in = { as_rect };

    #[tactic(auto, unfolding(crate::specs::Forms::as_rect))]
    fn from_value(value: Value) -> Option<Rect> {
        match value {
            Value::Box { x, y, w, h } => Some(Rect { x, y, w, h }),
            _ => None,
        }
    }
}

impl From<Rect> for Value {
    ghost from_gives = { λ r v. v ≡ form.Box r.x r.y r.w r.h };

    fn from(rect: Rect) -> Value {
        Value::Box {
            x: rect.x,
            y: rect.y,
            w: rect.w,
            h: rect.h,
        }
    }
}

impl FromValue for Matrix {
    ghost held_in = { as_matrix };

    #[tactic(auto, unfolding(crate::specs::Forms::as_matrix))]
    fn from_value(value: Value) -> Option<Matrix> {
        match value {
            Value::Matrix { a, b, c, d, e, f } => Some(Matrix { a, b, c, d, e, f }),
            _ => None,
        }
    }
}

impl From<Matrix> for Value {
    ghost from_gives = { λ m v. v ≡ form.Matrix m.a m.b m.c m.d m.e m.f };

    fn from(m: Matrix) -> Value {
        Value::Matrix {
            a: m.a,
            b: m.b,
            c: m.c,
            d: m.d,
            e: m.e,
            f: m.f,
        }
    }
}

impl FromValue for Aspect {
    ghost held_in = { as_aspect };

    #[tactic(auto, unfolding(crate::specs::Forms::as_aspect))]
    fn from_value(value: Value) -> Option<Aspect> {
        match value {
            Value::Aspect { align, slice } => Some(Aspect { align, slice }),
            _ => None,
        }
    }
}

impl From<Aspect> for Value {
    ghost from_gives = { λ a v. v ≡ form.Aspect a.align a.slice };

    fn from(aspect: Aspect) -> Value {
        Value::Aspect {
            align: aspect.align,
            slice: aspect.slice,
        }
    }
}

impl FromValue for f32 {
    ghost held_in = { as_number };

    #[tactic(auto, unfolding(crate::specs::Forms::as_number))]
    fn from_value(value: Value) -> Option<f32> {
        match value {
            Value::Number(x) => Some(x),
            _ => None,
        }
    }
}

impl From<f32> for Value {
    ghost from_gives = { λ x v. v ≡ form.Number x };

    fn from(number: f32) -> Value {
        Value::Number(number)
    }
}

impl FromValue for Word {
    ghost held_in = { as_word };

    #[tactic(auto, unfolding(crate::specs::Forms::as_word))]
    fn from_value(value: Value) -> Option<Word> {
        match value {
            Value::Word(held) => Some(held),
            _ => None,
        }
    }
}

impl From<Word> for Value {
    ghost from_gives = { λ w v. v ≡ form.Word w };

    fn from(word: Word) -> Value {
        Value::Word(word)
    }
}
