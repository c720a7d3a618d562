ghost use Rattle.std.specs.Prelude.{◌≡◌};
ghost use Rattle.converter.specs.Laws.{Accepted, AllGood};
ghost use Rattle.converter.specs.Rules.{root_fit, root_group, root_viewport, convert_root};

use crate::groups::{plain_group, spare_group};
use crate::rectangle::fitted_view_box;
use crate::rules::Converted;
use crate::state::State;
use element::Element;
use geom::{Matrix, Options, Rect, Ruler, Size};
use record::Group;
use refusal::Refusal;

// The fit of the root's view box into its size, or the identity with no view box.
#[tactic(auto, unfolding(crate::specs::Rules::root_fit))]
fn root_fit(element: &Element, size: Size) -> Matrix
    ensures { result ≡ root_fit element.now size }
{
    fitted_view_box(element).map_or(Matrix::default(), |view_box| view_box.to_transform(size))
}

// The group of the root's fit, unless that is the identity.
#[tactic(auto, using(crate::proofs::Constants::constants), unfolding(crate::specs::Rules::root_group))]
fn root_group(fit: Matrix) -> Option<Group>
    ensures { result ≡ root_group fit }
{
    (!fit.is_identity()).then_some(plain_group(0, fit, 1.0))
}

// The viewport inside the root: its view box, else its size.
#[tactic(auto, unfolding(crate::specs::Rules::root_viewport))]
fn root_viewport(element: &Element, size: Size, font_size: f32) -> Ruler
    ensures { result ≡ root_viewport element.now size font_size }
{
    let size = element.view_box().map_or(size, Rect::size);
    Ruler {
        w: size.w,
        h: size.h,
        f: font_size,
    }
}

/// The root of this size opens the fit of its view box, unless that is the identity, and in it a spare group.
#[tactic(auto, unfolding(crate::specs::Rules::convert_root, crate::specs::Groups::if_finite))]
pub fn convert_root(element: &Element, size: Size, options: Options) -> Result<Converted, Refusal>
    ensures rule { result ≡ convert_root element.now size options }
    ensures groups_are_good { Accepted result (AllGood element.now) }
{
    let fit = root_fit(element, size);
    if !fit.is_finite() {
        return Err(Refusal::NotFinite);
    }
    Ok(Converted {
        outer: root_group(fit),
        inner: spare_group(element, Matrix::default()),
        inside: State {
            ruler: root_viewport(element, size, options.font_size),
            dpi: options.dpi,
            use_size: (None, None),
            symbol_matrix: Matrix::default(),
        },
    })
}
