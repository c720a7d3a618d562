//! Commands, and reading them off a line.

#![tactic(auto, unfolding(crate::specs::Grammar::missing, crate::specs::Grammar::fits, notation::specs::Lengths::a_length))]

ghost use Rattle.std.specs.Prelude.{◌≡◌, codes};
ghost use Rattle.notation.specs.Names.{named};
ghost use Rattle.notation.specs.Words.{first_word};
ghost use Rattle.notation.specs.Numbers.{whole_number};
ghost use Rattle.drawing.specs.Grammar.{missing, Reading};
ghost use Rattle.drawing.specs.Commands.{measure_words, fit_words, new_missing, nodes_missing, add_words, set_missing, unset_words, size_words, Told, commands, missing_behind, says_nothing, line_missing, LineSaid};

use crate::expected::Expected;
use crate::words::Words;
use geom::{Direction, Length, Options, Ruler, Size, ViewBox};
use notation::{attribute_of, direction_of, first_word, kind_of, length_of, whole_number_of};
use svgtree::Call;

/// What a line asks for.
#[derive(Clone, Copy)]
pub enum Command {
    /// A length in user units.
    Measure {
        length: Length,
        direction: Direction,
        ruler: Ruler,
        dpi: f32,
    },
    /// The matrix that fits a view box into a size.
    Fit {
        view_box: ViewBox,
        size: Size,
    },
    /// A new document, in memory for so many nodes or for as many as a document may have.
    New {
        options: Options,
        nodes: Option<u32>,
    },
    /// A call that edits the document.
    Edit(Call),
    /// The size of the document's root.
    Size,
}

// Each of these reads what stands behind the command's name.

fn measure(words: &mut Words<'_>) -> Result<Command, Expected>
    ensures { Reading (missing measure_words words.old) (Told (codes "measure") words.old) result }
{
    let length = words.read(length_of, Expected::Length)?;
    let direction = words.read(direction_of, Expected::Direction)?;
    let ruler = words.ruler()?;
    let dpi = words.number()?;
    words.end()?;
    Ok(Command::Measure {
        length,
        direction,
        ruler,
        dpi,
    })
}

fn fit(words: &mut Words<'_>) -> Result<Command, Expected>
    ensures { Reading (missing fit_words words.old) (Told (codes "fit") words.old) result }
{
    let rect = words.rect()?;
    let aspect = words.aspect()?;
    let size = words.size()?;
    words.end()?;
    let view_box = ViewBox { rect, aspect };
    Ok(Command::Fit { view_box, size })
}

// How many nodes the memory holds, where the line says it.
#[tactic(auto, using(crate::proofs::Optional::no_whole_number), unfolding(crate::specs::Grammar::missing, crate::specs::Grammar::fits))]
fn nodes(words: &mut Words<'_>) -> Result<Option<u32>, Expected>
    ensures { Reading (nodes_missing words.old) (λ n. n ≡ whole_number (first_word words.old)) result }
{
    if first_word(words.rest).0.is_empty() {
        return Ok(None);
    }
    let count = words.read(whole_number_of, Expected::WholeNumber)?;
    words.end()?;
    Ok(Some(count))
}

fn document(words: &mut Words<'_>) -> Result<Command, Expected>
    ensures { Reading (new_missing words.old) (Told (codes "new") words.old) result }
{
    let [dpi, font_size] = words.numbers::<2>()?;
    let nodes = nodes(words)?;
    let options = Options { dpi, font_size };
    Ok(Command::New { options, nodes })
}

fn add(words: &mut Words<'_>) -> Result<Command, Expected>
    ensures { Reading (missing add_words words.old) (Told (codes "add") words.old) result }
{
    let parent = words.read(whole_number_of, Expected::WholeNumber)?;
    let kind = words.read(kind_of, Expected::Kind)?;
    words.end()?;
    Ok(Command::Edit(Call::Add { parent, kind }))
}

#[tactic(auto, using(crate::proofs::Rows::goes_on, crate::proofs::Rows::stops), unfolding(crate::specs::Grammar::missing, crate::specs::Grammar::fits))]
fn set(words: &mut Words<'_>) -> Result<Command, Expected>
    ensures { Reading (set_missing words.old) (Told (codes "set") words.old) result }
{
    let node = words.read(whole_number_of, Expected::WholeNumber)?;
    let attribute = words.read(attribute_of, Expected::Attribute)?;
    let form = words.form(attribute)?;
    let value = words.value(form)?;
    words.end()?;
    Ok(Command::Edit(Call::Set {
        node,
        attribute,
        value,
    }))
}

fn unset(words: &mut Words<'_>) -> Result<Command, Expected>
    ensures { Reading (missing unset_words words.old) (Told (codes "unset") words.old) result }
{
    let node = words.read(whole_number_of, Expected::WholeNumber)?;
    let attribute = words.read(attribute_of, Expected::Attribute)?;
    words.end()?;
    Ok(Command::Edit(Call::Unset { node, attribute }))
}

fn size(words: &mut Words<'_>) -> Result<Command, Expected>
    ensures { Reading (missing size_words words.old) (Told (codes "size") words.old) result }
{
    words.end()?;
    Ok(Command::Size)
}

// The command of this name.
#[tactic(auto, using(notation::proofs::Naming::other_text))]
fn read_command(name: &str, words: &mut Words<'_>) -> Result<Command, Expected>
    ensures { Reading (missing_behind (named commands name.now) words.old) (Told name.now words.old) result }
{
    match name {
        "measure" => measure(words),
        "fit" => fit(words),
        "new" => document(words),
        "add" => add(words),
        "set" => set(words),
        "unset" => unset(words),
        "size" => size(words),
        _ => Err(Expected::Command),
    }
}

// Whether a line with this first word says nothing: it is blank, a comment, or an answer.
#[tactic(auto, using(notation::proofs::Naming::other_text))]
fn is_passed_over(word: &str) -> bool
    ensures { result ≡ says_nothing word.now }
{
    matches!(word, "" | ">" | "<")
}

/// What a line asks for, or what it lacks. A line that is blank, a comment or an answer asks for nothing.
#[tactic(auto, unfolding(crate::specs::Commands::line_missing))]
pub fn read_line(line: &str) -> Result<Option<Command>, Expected>
    ensures { Reading (line_missing line.now) (LineSaid line.now) result }
{
    let mut words = Words { rest: line };
    let name = words.next();
    if is_passed_over(name) {
        return Ok(None);
    }
    read_command(name, &mut words).map(Some)
}
