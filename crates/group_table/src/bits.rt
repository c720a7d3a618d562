//! Floats as their bits.

ghost use Rattle.std.specs.Prelude.{◌≡◌, true, from_bits};
ghost use Rattle.std.specs.List.{list_all};
ghost use Rattle.std.specs.Float.{float_is_finite, binary32};
ghost use Rattle.group_table.specs.Floats.{is_number, floats_of};

/// The bits of N floats, none of them a NaN.
#[derive(Clone, Copy)]
pub struct Bits<const N: usize> {
    words: [u32; N],
    ghost numbers: { list_all is_number words ≡ true },
}

fn bits_of(float: f32) -> u32
    requires { float_is_finite float ≡ true }
    ensures value { from_bits binary32 result ≡ float }
    ensures number { is_number result ≡ true }
{
    float.to_bits()
}

fn float_of(word: u32) -> f32
    requires { is_number word ≡ true }
    ensures { result ≡ from_bits binary32 word }
{
    f32::from_bits(word)
}

impl<const N: usize> Bits<N> {
    /// The bits of finite floats.
    pub(crate) fn pack(floats: [f32; N]) -> Bits<N>
        requires { list_all float_is_finite floats ≡ true }
        ensures { floats_of result.words ≡ floats.entry }
    {
        let mut words = [0; N];
        for (i, float) in floats.iter().enumerate() {
            words[i] = bits_of(*float);
        }
        Bits { words }
    }

    /// The floats of the bits.
    pub(crate) fn unpack(self) -> [f32; N]
        ensures { result ≡ floats_of self.entry.words }
    {
        let mut floats = [0.0; N];
        for (i, word) in self.words.iter().enumerate() {
            floats[i] = float_of(*word);
        }
        floats
    }
}
