ghost use Rattle.std.specs.Prelude.{◌≡◌};
ghost use Rattle.converter.specs.Rectangle.{measured, position, side, resolved_rect, fitted_view_box, placing, viewport};

use crate::state::State;
use element::{Attribute, Element};
use geom::{Direction, Length, Matrix, Rect, Ruler, ViewBox, convert_length, side_or_full};

// A length in the viewport outside.
#[tactic(auto, unfolding(crate::specs::Rectangle::measured))]
pub(crate) fn measure(state: &State, direction: Direction, length: Length) -> f32
    ensures { result ≡ measured state.now direction length }
{
    convert_length(length, direction, state.dpi, state.ruler)
}

// x or y, or 0 where it is missing.
#[tactic(auto, using(crate::proofs::Constants::constants), unfolding(crate::specs::Rectangle::position))]
pub(crate) fn position(state: &State, direction: Direction, length: Option<Length>) -> f32
    ensures { result ≡ position state.now direction length }
{
    length.map_or(0.0, |length| measure(state, direction, length))
}

// Width or height: a use size where there is one, and else the own length, or 100% where that is missing.
#[tactic(auto, unfolding(crate::specs::Rectangle::side))]
fn side(state: &State, direction: Direction, use_size: Option<f32>, own: Option<Length>) -> f32
    ensures { result ≡ side state.now direction use_size own }
{
    use_size.unwrap_or_else(|| measure(state, direction, side_or_full(own)))
}

/// The resolved rectangle of an element that is handed these sizes: a nested svg, or the use of a symbol.
#[tactic(auto, unfolding(crate::specs::Rectangle::resolved_rect))]
pub(crate) fn resolve_rect(
    element: &Element,
    sizes: (Option<f32>, Option<f32>),
    state: &State,
) -> Rect
    ensures { result ≡ resolved_rect element.now sizes state.now }
{
    Rect {
        x: position(state, Direction::Across, element.attribute(Attribute::X)),
        y: position(state, Direction::Down, element.attribute(Attribute::Y)),
        w: side(
            state,
            Direction::Across,
            sizes.0,
            element.attribute(Attribute::Width),
        ),
        h: side(
            state,
            Direction::Down,
            sizes.1,
            element.attribute(Attribute::Height),
        ),
    }
}

/// The view box and how it is fitted, where there is one.
#[tactic(auto, unfolding(crate::specs::Rectangle::fitted_view_box))]
pub(crate) fn fitted_view_box(element: &Element) -> Option<ViewBox>
    ensures { result ≡ fitted_view_box element.now }
{
    element.view_box().map(|rect| ViewBox {
        rect,
        aspect: element.aspect(),
    })
}

/// The place of the content in its rectangle: the translation to its corner, and within that the fit of the view box.
#[tactic(auto, unfolding(crate::specs::Rectangle::placing))]
pub(crate) fn viewbox_transform(rect: Rect, view_box: Option<ViewBox>) -> Matrix
    ensures { result ≡ placing rect view_box }
{
    let translation = Matrix::from_translate(rect.x, rect.y);
    match view_box {
        Some(view_box) if rect.is_valid() => {
            translation.pre_concat(view_box.to_transform(rect.size()))
        }
        _ => translation,
    }
}

/// The viewport inside: the view box, else the valid size, else the one outside.
#[tactic(auto, unfolding(crate::specs::Rectangle::viewport))]
pub(crate) fn viewport(view_box: Option<ViewBox>, rect: Rect, outside: Ruler) -> Ruler
    ensures { result ≡ viewport view_box rect outside }
{
    let inside = match view_box {
        Some(view_box) => view_box.rect,
        None if rect.is_valid() => rect,
        None => return outside,
    };
    Ruler {
        w: inside.w,
        h: inside.h,
        ..outside
    }
}
