ghost use Rattle.std.specs.Prelude.{◌≡◌};
ghost use Rattle.geom.specs.Root.{side_or_full, percent_side, root_side, root_sides, root_flag, root_size};

use crate::length::{Direction, Length, Unit, convert_length};
use crate::options::Options;
use crate::rect::{Rect, Ruler, Size};
use refusal::{Refusal, first};

/// What the root's size follows from: its width, its height and its view box, each of which may be missing.
#[derive(Clone, Copy, PartialEq, Debug)]
pub struct RootAttributes {
    pub width: Option<Length>,
    pub height: Option<Length>,
    pub view_box: Option<Rect>,
}

/// The root's size, and a flag that says whether a side was a percent with no view box to be of.
#[derive(Clone, Copy, PartialEq, Debug)]
pub struct RootSize {
    pub size: Size,
    pub flag: bool,
}

/// A side, or 100% where it is missing.
#[tactic(auto, using(crate::proofs::Constants::hundred_is), unfolding(crate::specs::Root::side_or_full))]
pub fn side_or_full(side: Option<Length>) -> Length
    ensures { result ≡ side_or_full side }
{
    side.unwrap_or(Length {
        number: 100.0,
        unit: Unit::Percent,
    })
}

// A percent of the view box's side; with no view box the number itself.
#[tactic(auto, using(crate::proofs::Constants::hundred_is), unfolding(crate::specs::Root::percent_side))]
fn percent_side(number: f32, view_box_side: Option<f32>) -> f32
    ensures { result ≡ percent_side number view_box_side }
{
    match view_box_side {
        Some(side) => side * (number / 100.0),
        None => number,
    }
}

// One side of the root.
#[tactic(auto, using(crate::proofs::Constants::zero_is), unfolding(crate::specs::Root::root_side, crate::specs::Length::base_of))]
fn root_side(length: Length, view_box_side: Option<f32>, options: Options) -> f32
    ensures { result ≡ root_side length view_box_side options }
{
    if length.unit == Unit::Percent {
        return percent_side(length.number, view_box_side);
    }
    convert_length(
        length,
        Direction::Across,
        options.dpi,
        Ruler {
            w: 0.0,
            h: 0.0,
            f: options.font_size,
        },
    )
}

impl RootAttributes {
    // Both sides: where the root has a view box and one side only, the other follows from the view box's proportions.
    #[tactic(auto, unfolding(crate::specs::Root::sides_of, crate::specs::Root::side_or_full))]
    fn sides(self, options: Options) -> Size
        ensures { result ≡ root_sides self options }
    {
        let width = side_or_full(self.width);
        let height = side_or_full(self.height);
        let Some(rect) = self.view_box else {
            return Size {
                w: root_side(width, None, options),
                h: root_side(height, None, options),
            };
        };
        let w = root_side(width, Some(rect.w), options);
        let h = root_side(height, Some(rect.h), options);
        match (self.width, self.height) {
            (Some(_), None) => Size {
                w,
                h: rect.h * w / rect.w,
            },
            (None, Some(_)) => Size {
                w: rect.w * h / rect.h,
                h,
            },
            (Some(_), Some(_)) | (None, None) => Size { w, h },
        }
    }

    // Whether some side is a percent with no view box to be of.
    #[tactic(auto, unfolding(crate::specs::Root::root_flag))]
    fn flag(self) -> bool
        ensures { result ≡ root_flag self }
    {
        self.view_box.is_none()
            && (side_or_full(self.width).unit == Unit::Percent
                || side_or_full(self.height).unit == Unit::Percent)
    }
}

/// The root's size, or why it has none: a size that is not finite is refused before one that is not valid.
#[tactic(auto, unfolding(crate::specs::Root::root_size, crate::specs::Root::size_refusal))]
pub fn resolve_svg_size(root: RootAttributes, options: Options) -> Result<RootSize, Refusal>
    ensures { result ≡ root_size root options }
{
    let size = root.sides(options);
    first(&[
        (!size.is_finite(), Refusal::NotFinite),
        (!size.is_valid(), Refusal::InvalidSize),
    ])?;
    Ok(RootSize {
        size,
        flag: root.flag(),
    })
}
