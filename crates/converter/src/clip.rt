ghost use Rattle.std.specs.Prelude.{◌≡◌};
ghost use Rattle.converter.specs.Clip.{both_set, from_use, keeps_in, svg_clip, symbol_clip};

use crate::state::State;
use element::{Attribute, Element};
use geom::{Length, Rect};

// Whether the rectangle is valid, and overflow is neither visible nor auto.
#[tactic(auto, unfolding(crate::specs::Clip::keeps_in))]
fn keeps_in(element: &Element, rect: Rect) -> bool
    ensures { result ≡ keeps_in element.now rect }
{
    rect.is_valid() && !element.overflows()
}

// Whether an svg's both sides are set.
#[tactic(auto, unfolding(crate::specs::Clip::both_set))]
fn has_both_sizes(element: &Element) -> bool
    ensures { result ≡ both_set element.now }
{
    element.attribute::<Length>(Attribute::Width).is_some()
        && element.attribute::<Length>(Attribute::Height).is_some()
}

// Whether a use hands it at least one size.
#[tactic(auto, unfolding(crate::specs::Clip::from_use))]
fn has_use_size(state: &State) -> bool
    ensures { result ≡ from_use state.now }
{
    state.use_size.0.is_some() || state.use_size.1.is_some()
}

/// The clip of a nested svg with this resolved rectangle, or none.
#[tactic(auto, unfolding(crate::specs::Clip::svg_clip))]
pub(crate) fn svg_clip(element: &Element, state: &State, rect: Rect) -> Option<Rect>
    ensures { result ≡ svg_clip element.now state.now rect }
{
    let clips = keeps_in(element, rect) && (has_both_sizes(element) || has_use_size(state));
    clips.then_some(rect)
}

/// The clip of a used symbol with this resolved rectangle, or none.
#[tactic(auto, unfolding(crate::specs::Clip::symbol_clip))]
pub(crate) fn symbol_clip(symbol: &Element, rect: Rect) -> Option<Rect>
    ensures { result ≡ symbol_clip symbol.now rect }
{
    keeps_in(symbol, rect).then_some(rect)
}
