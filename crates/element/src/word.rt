ghost use Rattle.std.specs.Prelude.{◌≡◌};
ghost use Rattle.element.specs.Words.{word_of};

/// The words that mean something in an attribute's value; any other text is one word.
#[derive(Clone, Copy, PartialEq, Eq, Debug)]
pub enum Word {
    Yes,
    No,
    Visible,
    Auto,
    Other,
}

/// The code of a word, by its exact letters.
pub fn word_of(text: &str) -> Word
    ensures { result ≡ word_of text.now }
{
    match text {
        "yes" => Word::Yes,
        "no" => Word::No,
        "visible" => Word::Visible,
        "auto" => Word::Auto,
        _ => Word::Other,
    }
}
