//! Reading what takes several words: sizes, rulers, rectangles, matrices, aspects and attributes' values.

#![tactic(auto, unfolding(crate::specs::Grammar::missing, crate::specs::Grammar::fits))]

ghost use Rattle.std.specs.Prelude.{◌≡◌, [], ◌∷◌, Some, replicate};
ghost use Rattle.drawing.specs.Grammar.{Part, Reading};
ghost use Rattle.drawing.specs.Values.{NumberAt, NumbersAt, SizeAt, RulerAt, RectAt, MatrixAt, AspectAt, ValueAt, words_of, own_form, form_at, past_form, form_missing};
ghost use Rattle.drawing.specs.declared.expected.Expected.TheVariants as expected;

use crate::expected::Expected;
use crate::words::Words;
use element::{Attribute, Value};
use geom::{Aspect, Matrix, Rect, Ruler, Size};
use notation::{Form, align_of, first_word, form_of, length_of, number_of, slice_of};

impl Words<'_> {
    pub(crate) fn number(&mut self) -> Result<f32, Expected>
        ensures { Part (expected.Number ∷ []) NumberAt self.old self.new result }
    {
        self.read(number_of, Expected::Number)
    }

    /// The next `N` words as numbers.
    pub(crate) fn numbers<const N: usize>(&mut self) -> Result<[f32; N], Expected>
        ensures { Part (replicate N expected.Number) NumbersAt self.old self.new result }
    {
        let mut numbers = [0.0; N];
        for number in numbers.iter_mut() {
            *number = self.number()?;
        }
        Ok(numbers)
    }

    pub(crate) fn size(&mut self) -> Result<Size, Expected>
        ensures { Part (replicate 2 expected.Number) SizeAt self.old self.new result }
    {
        let [w, h] = self.numbers::<2>()?;
        Ok(Size { w, h })
    }

    pub(crate) fn ruler(&mut self) -> Result<Ruler, Expected>
        ensures { Part (replicate 3 expected.Number) RulerAt self.old self.new result }
    {
        Ok(self.numbers::<3>()?.into())
    }

    pub(crate) fn rect(&mut self) -> Result<Rect, Expected>
        ensures { Part (replicate 4 expected.Number) RectAt self.old self.new result }
    {
        Ok(self.numbers::<4>()?.into())
    }

    fn matrix(&mut self) -> Result<Matrix, Expected>
        ensures { Part (replicate 6 expected.Number) MatrixAt self.old self.new result }
    {
        Ok(self.numbers::<6>()?.into())
    }

    pub(crate) fn aspect(&mut self) -> Result<Aspect, Expected>
        ensures { Part (expected.Align ∷ expected.Slice ∷ []) AspectAt self.old self.new result }
    {
        let align = self.read(align_of, Expected::Align)?;
        let slice = self.read(slice_of, Expected::Slice)?;
        Ok(Aspect { align, slice })
    }

    /// The form of a value for the attribute: the one that is named behind an `@`, or the attribute's own.
    #[tactic(auto, using(crate::proofs::Marked::unmarked), unfolding(crate::specs::Values::form_at, crate::specs::Values::past_form))]
    pub(crate) fn form(&mut self, attribute: Attribute) -> Result<Form, Expected>
        ensures { Reading (form_missing (form_at attribute self.old)) (λ f. (form_at attribute self.old ≡ Some f) × (self.new ≡ past_form self.old)) result }
    {
        let (word, rest) = first_word(self.rest);
        let Some(name) = word.strip_prefix('@') else {
            return Ok(own_form(attribute));
        };
        self.rest = rest;
        form_of(name).ok_or(Expected::Form)
    }

    /// A value of this form.
    #[tactic(auto, unfolding(crate::specs::Grammar::missing, crate::specs::Grammar::fits, notation::specs::Lengths::a_length, element::specs::Forms::as_length, element::specs::Forms::as_rect, element::specs::Forms::as_matrix, element::specs::Forms::as_aspect, element::specs::Forms::as_number, element::specs::Forms::as_word))]
    pub(crate) fn value(&mut self, form: Form) -> Result<Value, Expected>
        ensures { Part (words_of form) (ValueAt form) self.old self.new result }
    {
        Ok(match form {
            Form::Length => self.read(length_of, Expected::Length)?.into(),
            Form::Box => self.rect()?.into(),
            Form::Matrix => self.matrix()?.into(),
            Form::Aspect => self.aspect()?.into(),
            Form::Number => self.number()?.into(),
            Form::Word => self.word()?.into(),
        })
    }
}

// The form that an attribute's values have.
fn own_form(attribute: Attribute) -> Form
    ensures { result ≡ own_form attribute }
{
    match attribute {
        Attribute::Id | Attribute::Opacity => Form::Number,
        Attribute::Shown | Attribute::Overflow => Form::Word,
        Attribute::Matrix => Form::Matrix,
        Attribute::X | Attribute::Y | Attribute::Width | Attribute::Height => Form::Length,
        Attribute::ViewBox => Form::Box,
        Attribute::Aspect => Form::Aspect,
    }
}
