//! The words of a line.

ghost use Rattle.std.specs.Prelude.{◌≡◌};
ghost use Rattle.std.specs.List.{position_or_len};
ghost use Rattle.std.specs.Char.{is_ascii_whitespace};
ghost use Rattle.notation.specs.Words.{first_word, past_word};

// How many bytes stand before the first white space.
fn word_len(bytes: &[u8]) -> usize
    ensures { result ≡ position_or_len is_ascii_whitespace bytes.now }
{
    bytes
        .iter()
        .position(|byte| byte.is_ascii_whitespace())
        .unwrap_or(bytes.len())
}

/// The first word of a line, empty where there is none, and what follows it. White space parts words, and a `#` where a
/// word would begin starts a comment, which ends the line.
#[tactic(auto, using(crate::proofs::Parting::word_boundary))]
pub fn first_word(line: &str) -> (&str, &str)
    ensures word { result.0.now ≡ first_word line.now }
    ensures rest { result.1.now ≡ past_word line.now }
{
    let unread = line.trim_ascii_start();
    if unread.starts_with('#') {
        return ("", "");
    }
    unread.split_at(word_len(unread.as_bytes()))
}
