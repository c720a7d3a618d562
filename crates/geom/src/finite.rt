ghost use Rattle.std.specs.Prelude.{◌≡◌};
ghost use Rattle.std.specs.Float.{float_is_finite};
ghost use Rattle.std.specs.List.{list_all};

/// Whether no float is an infinity or not a number.
pub(crate) fn all_finite<const N: usize>(floats: [f32; N]) -> bool
    ensures { result ≡ list_all float_is_finite floats.entry }
{
    floats.iter().all(|x| x.is_finite())
}
