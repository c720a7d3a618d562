ghost use Rattle.std.specs.Prelude.{◌≡◌, true};
ghost use Rattle.std.specs.Option.{option_map};
ghost use Rattle.geom.specs.Matrix.{product, finite_matrix};
ghost use Rattle.element.specs.Attributes.{length_of, matrix_of};
ghost use Rattle.converter.specs.Laws.{Accepted, SvgClips, SymbolClips, OwnThenPlacing, OwnThenSymbol, Alone, AllGood, svg_placing, symbol_placing, use_translation};
ghost use Rattle.converter.specs.Rectangle.{measured};
ghost use Rattle.converter.specs.Rules.{convert_leaf, convert_g, svg_groups, finite_placing, convert_svg, use_symbol_groups, convert_use_symbol, use_size, finite_or_none, convert_use_other, convert_symbol, bare, convert_use, convert_group};

use crate::clip::{svg_clip, symbol_clip};
use crate::groups::{clip_group, plain_group, spare_group};
use crate::rectangle::{
    fitted_view_box, measure, position, resolve_rect, viewbox_transform, viewport,
};
use crate::state::State;
use element::{Attribute, Element, Role};
use geom::{Direction, Matrix, Rect, Ruler};
use record::Group;
use refusal::Refusal;

/// What a rule gives: at most two groups, from the outside in, and what holds inside them.
#[derive(Clone, Copy, PartialEq, Debug)]
pub struct Converted {
    pub outer: Option<Group>,
    pub inner: Option<Group>,
    pub inside: State,
}

/// A leaf's mark stands in a spare group with its own matrix.
#[tactic(auto, unfolding(crate::specs::Rules::convert_leaf, crate::specs::Rules::bare, crate::specs::Groups::if_finite))]
pub fn convert_leaf(element: &Element, state: &State) -> Result<Converted, Refusal>
    ensures rule { result ≡ convert_leaf element.now state.now }
    ensures own_matrix_alone { Accepted result (λ c. Alone c.inner c.outer (matrix_of element.now)) }
    ensures groups_are_good { Accepted result (AllGood element.now) }
{
    let own = element.matrix();
    if !own.is_finite() {
        return Err(Refusal::NotFinite);
    }
    Ok(Converted {
        inner: spare_group(element, own),
        ..bare(state)
    })
}

/// A g is always a group.
#[tactic(auto, using(crate::proofs::Goodness::good_plain, crate::proofs::Goodness::finite_identity), unfolding(crate::specs::Rules::convert_g, crate::specs::Rules::bare, crate::specs::State::ruled, crate::specs::State::framed, crate::specs::Groups::group, crate::specs::Groups::if_finite))]
pub fn convert_g(element: &Element, state: &State) -> Result<Converted, Refusal>
    ensures rule { result ≡ convert_g element.now state.now }
    ensures own_matrix_alone { Accepted result (λ c. Alone c.outer c.inner (matrix_of element.now)) }
    ensures groups_are_good { Accepted result (AllGood element.now) }
{
    let own = element.matrix();
    if !own.is_finite() {
        return Err(Refusal::NotFinite);
    }
    Ok(Converted {
        outer: Some(plain_group(element.id(), own, element.opacity())),
        ..bare(state)
    })
}

/// Where an element's content goes: the placing within the element's own matrix, and the clip, or none.
#[derive(Clone, Copy)]
struct Placement {
    matrix: Matrix,
    clip: Option<Rect>,
}

impl Placement {
    // What is used of it and of the own matrix is finite: each matrix alone with a clip, and without one their product.
    #[tactic(auto, unfolding(crate::specs::Rules::finite_placing))]
    fn is_finite(self, own: Matrix) -> bool
        ensures { result ≡ finite_placing own self.matrix self.clip }
    {
        self.matrix.is_finite()
            && match self.clip {
                Some(_) => own.is_finite(),
                None => own.pre_concat(self.matrix).is_finite(),
            }
    }
}

// The groups of a nested svg: with a clip, the own matrix outside and the placing inside; without, their product.
#[tactic(auto, unfolding(crate::specs::Rules::svg_groups))]
fn svg_groups(element: &Element, placement: Placement, inside: State) -> Converted
    ensures { result ≡ svg_groups element.now placement.matrix placement.clip inside }
{
    let own = element.matrix();
    match placement.clip {
        Some(clip) => Converted {
            outer: Some(clip_group(element.id(), own, clip)),
            inner: spare_group(element, placement.matrix),
            inside,
        },
        None => Converted {
            outer: None,
            inner: spare_group(element, own.pre_concat(placement.matrix)),
            inside,
        },
    }
}

/// A nested svg: its resolved rectangle clips it, or not, and its view box is fitted into that.
#[tactic(auto, unfolding(crate::specs::Rules::convert_svg, crate::specs::Groups::if_finite))]
pub fn convert_svg(element: &Element, state: &State) -> Result<Converted, Refusal>
    ensures rule { result ≡ convert_svg element.now state.now }
    ensures clips_to_its_rectangle { Accepted result (SvgClips element.now state.now) }
    ensures own_matrix_then_placing { Accepted result (OwnThenPlacing (matrix_of element.now) (svg_placing element.now state.now)) }
    ensures groups_are_good { Accepted result (AllGood element.now) }
{
    let rect = resolve_rect(element, state.use_size, state);
    let view_box = fitted_view_box(element);
    let placement = Placement {
        matrix: viewbox_transform(rect, view_box),
        clip: svg_clip(element, state, rect),
    };
    if !(rect.is_finite() && placement.is_finite(element.matrix())) {
        return Err(Refusal::NotFinite);
    }
    let inside = state.ruled(viewport(view_box, rect, state.ruler));
    Ok(svg_groups(element, placement, inside))
}

// The groups of a use of a symbol, whose own group has the placing, and the use's matrix too where there is no clip.
#[tactic(auto, unfolding(crate::specs::Rules::use_symbol_groups))]
fn use_symbol_groups(
    element: &Element,
    placement: Placement,
    state: &State,
    ruler: Ruler,
) -> Converted
    ensures { result ≡ use_symbol_groups element.now placement.matrix placement.clip state.now ruler }
{
    let own = element.matrix();
    match placement.clip {
        Some(clip) => Converted {
            outer: Some(clip_group(element.id(), own, clip)),
            inner: Some(plain_group(0, Matrix::default(), element.opacity())),
            inside: state.framed(ruler, placement.matrix),
        },
        None => Converted {
            outer: Some(plain_group(element.id(), Matrix::default(), element.opacity())),
            inner: None,
            inside: state.framed(ruler, own.pre_concat(placement.matrix)),
        },
    }
}

/// A use of a symbol: the rectangle is the use's; view box, aspect and overflow are the symbol's.
#[tactic(auto, unfolding(crate::specs::Rules::convert_use_symbol, crate::specs::Groups::if_finite))]
pub fn convert_use_symbol(
    element: &Element,
    symbol: &Element,
    state: &State,
) -> Result<Converted, Refusal>
    ensures rule { result ≡ convert_use_symbol element.now symbol.now state.now }
    ensures clips_to_its_rectangle { Accepted result (SymbolClips element.now symbol.now state.now) }
    ensures own_matrix_then_placing { Accepted result (OwnThenSymbol (matrix_of element.now) (symbol_placing element.now symbol.now state.now)) }
    ensures groups_are_good { Accepted result (AllGood element.now) }
{
    let rect = resolve_rect(element, (None, None), state);
    let view_box = fitted_view_box(symbol);
    let placement = Placement {
        matrix: viewbox_transform(rect, view_box),
        clip: symbol_clip(symbol, rect),
    };
    if !(rect.is_finite() && placement.is_finite(element.matrix())) {
        return Err(Refusal::NotFinite);
    }
    let ruler = viewport(view_box, rect, state.ruler);
    Ok(use_symbol_groups(element, placement, state, ruler))
}

// One of the sizes that a use hands on, if it is set.
fn use_side(
    element: &Element,
    attribute: Attribute,
    direction: Direction,
    state: &State,
) -> Option<f32>
    ensures { result ≡ option_map (measured state.now direction) (length_of element.now attribute) }
{
    element
        .attribute(attribute)
        .map(|length| measure(state, direction, length))
}

// The sizes that a use hands to a child svg, and to no other child.
#[tactic(auto, unfolding(crate::specs::Rules::use_size))]
fn use_size(element: &Element, child: Role, state: &State) -> (Option<f32>, Option<f32>)
    ensures { result ≡ use_size element.now child state.now }
{
    match child {
        Role::Svg => (
            use_side(element, Attribute::Width, Direction::Across, state),
            use_side(element, Attribute::Height, Direction::Down, state),
        ),
        Role::G | Role::Use | Role::Symbol | Role::Leaf | Role::Other => (None, None),
    }
}

fn is_finite_or_none(size: Option<f32>) -> bool
    ensures { result ≡ finite_or_none size }
{
    size.is_none_or(|size| size.is_finite())
}

/// A use of anything but a symbol: moved by x and y within its own matrix.
#[tactic(auto, using(crate::proofs::Goodness::good_plain, crate::proofs::Goodness::finite_identity), unfolding(crate::specs::Rules::convert_use_other, crate::specs::State::sized, crate::specs::Groups::group, crate::specs::Groups::if_finite))]
pub fn convert_use_other(
    element: &Element,
    child: Role,
    state: &State,
) -> Result<Converted, Refusal>
    ensures rule { result ≡ convert_use_other element.now child state.now }
    ensures own_matrix_then_translation { Accepted result (λ c. Alone c.outer c.inner (product (matrix_of element.now) (use_translation element.now state.now))) }
    ensures groups_are_good { Accepted result (AllGood element.now) }
{
    let x = position(state, Direction::Across, element.attribute(Attribute::X));
    let y = position(state, Direction::Down, element.attribute(Attribute::Y));
    let matrix = element.matrix().pre_concat(Matrix::from_translate(x, y));
    let sizes = use_size(element, child, state);
    let finite_sizes = is_finite_or_none(sizes.0) && is_finite_or_none(sizes.1);
    if !(x.is_finite() && y.is_finite() && finite_sizes && matrix.is_finite()) {
        return Err(Refusal::NotFinite);
    }
    Ok(Converted {
        outer: Some(plain_group(element.id(), matrix, element.opacity())),
        inner: None,
        inside: state.sized(sizes),
    })
}

/// A used symbol's own group, which is spare; its use has found the matrix finite.
#[tactic(auto, unfolding(crate::specs::Rules::convert_symbol, crate::specs::Rules::bare))]
pub fn convert_symbol(element: &Element, state: &State) -> Converted
    ensures rule { result ≡ convert_symbol element.now state.now }
    ensures placing_alone { Alone result.inner result.outer state.now.symbol_matrix }
    ensures groups_are_good { finite_matrix state.now.symbol_matrix ≡ true → AllGood element.now result }
{
    Converted {
        inner: spare_group(element, state.symbol_matrix),
        ..bare(state)
    }
}

// An element that puts no group round its content.
#[tactic(auto, unfolding(crate::specs::Rules::bare))]
fn bare(state: &State) -> Converted
    ensures { result ≡ bare state.now }
{
    Converted {
        outer: None,
        inner: None,
        inside: state.ruled(state.ruler),
    }
}

/// A use shows its child; with none it gives nothing.
#[tactic(auto, unfolding(crate::specs::Rules::convert_use))]
pub fn convert_use(
    element: &Element,
    child: Option<&Element>,
    state: &State,
) -> Result<Converted, Refusal>
    ensures { result ≡ convert_use element.now (option_map (λ x. x.now) child.entry) state.now }
{
    let Some(child) = child else {
        return Ok(bare(state));
    };
    match child.kind.role() {
        Role::Symbol => convert_use_symbol(element, child, state),
        role => convert_use_other(element, role, state),
    }
}

/// The rule of an element below the root, by its kind; a use is given the child that it shows.
#[tactic(auto, unfolding(crate::specs::Rules::convert_as))]
pub fn convert_group(
    element: &Element,
    child: Option<&Element>,
    state: &State,
) -> Result<Converted, Refusal>
    ensures { result ≡ convert_group element.now (option_map (λ x. x.now) child.entry) state.now }
{
    match element.kind.role() {
        Role::Svg => convert_svg(element, state),
        Role::G => convert_g(element, state),
        Role::Use => convert_use(element, child, state),
        Role::Symbol => Ok(convert_symbol(element, state)),
        Role::Leaf => convert_leaf(element, state),
        Role::Other => Ok(bare(state)),
    }
}
