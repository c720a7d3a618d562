ghost use Rattle.std.specs.Prelude.{◌≡◌};
ghost use Rattle.geom.specs.Opacity.{plain};

/// The bits of the float 1.
const ONE_BITS: u32 = 0x3f80_0000;

/// How far from those an opacity's bits may be for it to count as 1.
const PLAIN_BITS: u32 = 4;

/// Whether an opacity counts as 1: its bits are at most 4 from those of 1.
pub fn is_plain(opacity: f32) -> bool
    ensures { result ≡ plain opacity }
{
    !opacity.is_nan() && opacity.to_bits().abs_diff(ONE_BITS) <= PLAIN_BITS
}
