//! The texts of numbers.

ghost use Rattle.std.specs.Prelude.{◌≡◌, false, MatchOption};
ghost use Rattle.notation.specs.Numbers.{a_number, Number, whole_number};

/// The number that a text writes, if it writes one.
#[tactic(auto, using(crate::proofs::Numbering::number_read))]
pub fn number_of(text: &str) -> Option<f32>
    ensures { MatchOption result (a_number text.now ≡ false) (λ x. Number text.now x) }
{
    text.parse::<f32>().ok()
}

/// The whole number below 2^32 that a text writes, if it writes one.
#[tactic(auto, using(crate::proofs::Numbering::whole_read))]
pub fn whole_number_of(text: &str) -> Option<u32>
    ensures { result ≡ whole_number text.now }
{
    text.parse::<u32>().ok()
}
