//! How a float is written for programs: the eight hexadecimal digits of its bits.

ghost use Rattle.std.specs.Prelude.{◌≡◌, Some};
ghost use Rattle.reply.specs.Bits.{bits_of, bits_text};

use std::fmt;

/// The bits of what is no number.
const NAN_BITS: u32 = 0x7fc0_0000;

/// The bits of a float, in which a zero has no sign.
pub fn bits_of(x: f32) -> u32
    ensures { result ≡ bits_of x }
{
    if x.is_nan() {
        NAN_BITS
    } else if x == 0.0 {
        0
    } else {
        x.to_bits()
    }
}

/// A float that is written as the eight hexadecimal digits of its bits.
#[derive(Clone, Copy)]
pub struct Bits(pub f32);

impl fmt::Display for Bits {
    ghost output = { λ b. Some (bits_text b.0) };

    fn fmt<W: fmt::Write>(&self, f: &mut fmt::Formatter<W>) -> fmt::Result {
        let bits = bits_of(self.0);
        write!(f, "{bits:08x}")
    }
}
