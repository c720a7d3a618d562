//! What is printed for a line.

ghost use Rattle.std.specs.Prelude.{◌≡◌, MatchResult};
ghost use Rattle.notation.specs.Names.{named};
ghost use Rattle.reply.specs.Replies.{reply_text, styles, StyleNamed};

use crate::answer::{Answer, Failure};
use crate::people::ForPeople;
use crate::plain::Plain;
use std::fmt;
use std::str::FromStr;

/// How answers are written: for programs, or for people.
#[derive(Clone, Copy, PartialEq, Eq, Debug)]
pub enum Style {
    Plain,
    People,
}

/// The word names no style.
#[derive(Clone, Copy, PartialEq, Eq, Debug)]
pub struct UnknownStyle;

/// The style that a word asks for.
impl FromStr for Style {
    type Err = UnknownStyle;

    ghost from_str_gives = { λ word r. StyleNamed word r };

    fn from_str(word: &str) -> Result<Style, UnknownStyle> {
        match word {
            "people" => Ok(Style::People),
            _ => Err(UnknownStyle),
        }
    }
}

/// What a line is answered, in a style.
#[derive(Clone, Copy)]
pub struct Reply {
    pub style: Style,
    pub outcome: Result<Answer, Failure>,
}

impl fmt::Display for Reply {
    ghost output = { λ r. reply_text r };

    fn fmt<W: fmt::Write>(&self, f: &mut fmt::Formatter<W>) -> fmt::Result {
        match (self.style, self.outcome) {
            (Style::Plain, Ok(answer)) => write!(f, "> {}", Plain(answer)),
            (Style::Plain, Err(failure)) => write!(f, "> {}", Plain(failure)),
            (Style::People, Ok(answer)) => write!(f, "    {}", ForPeople(answer)),
            (Style::People, Err(failure)) => write!(f, "    {}", ForPeople(failure)),
        }
    }
}
