ghost use Rattle.std.specs.Prelude.{◌≡◌, cond, Some, None, to_bits};
ghost use Rattle.std.specs.Float.{binary32};
ghost use Rattle.std.specs.Float.Ieee.{is_nan};

use geom::Matrix;
use std::process::Abort;

/// A float's bits, by which floats are compared: 0 and -0 differ, and what is not a number is one value, none.
pub fn bits(x: f32) -> Option<u32>
    ensures { result ≡ cond (is_nan x) None (Some (to_bits binary32 x)) }
{
    if x.is_nan() { None } else { Some(x.to_bits()) }
}

/// The matrix has these entries, by their bits.
pub fn check_entries(rt: &impl Abort, m: Matrix, expected: [f32; 6]) {
    assert_eq!(rt; <[f32; 6]>::from(m).map(bits), expected.map(bits));
}
