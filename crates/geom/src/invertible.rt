//! What the definition of an invertible matrix rests on.

ghost use Rattle.geom.specs.Invertible.{UnitsExact, SameIsEquality};

/// Every finite f32 is a whole number of the units by which `Matrix::is_invertible` is defined, and these are compared rightly.
pub fn units_are_exact()
    ensures lossless { UnitsExact }
    ensures compared { SameIsEquality }
{}
