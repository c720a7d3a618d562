ghost use Rattle.std.specs.Prelude.{◌≡◌};
ghost use Rattle.geom.specs.Fit.{fit, scales, smaller, larger, aligned, across, down, default_aspect};

use crate::matrix::Matrix;
use crate::rect::{Rect, Size};

/// Where a view box stands in its viewport.
#[derive(Clone, Copy, PartialEq, Eq, Debug)]
pub enum Align {
    None,
    XMinYMin,
    XMidYMin,
    XMaxYMin,
    XMinYMid,
    XMidYMid,
    XMaxYMid,
    XMinYMax,
    XMidYMax,
    XMaxYMax,
}

/// How a view box is fitted: where it stands, and whether it covers the viewport (slice) or lies within it (meet).
#[derive(Clone, Copy, PartialEq, Eq, Debug)]
pub struct Aspect {
    pub align: Align,
    pub slice: bool,
}

/// A view box's rectangle and how it is fitted.
#[derive(Clone, Copy, PartialEq, Debug)]
pub struct ViewBox {
    pub rect: Rect,
    pub aspect: Aspect,
}

/// Where something stands along one side: at its start, in its middle or at its end.
#[derive(Clone, Copy)]
enum Position {
    Start,
    Middle,
    End,
}

impl Align {
    #[tactic(auto, unfolding(crate::specs::Fit::across))]
    fn across(self) -> Position
        ensures { result ≡ across self }
    {
        match self {
            Align::None | Align::XMinYMin | Align::XMinYMid | Align::XMinYMax => Position::Start,
            Align::XMidYMin | Align::XMidYMid | Align::XMidYMax => Position::Middle,
            Align::XMaxYMin | Align::XMaxYMid | Align::XMaxYMax => Position::End,
        }
    }

    #[tactic(auto, unfolding(crate::specs::Fit::down))]
    fn down(self) -> Position
        ensures { result ≡ down self }
    {
        match self {
            Align::None | Align::XMinYMin | Align::XMidYMin | Align::XMaxYMin => Position::Start,
            Align::XMinYMid | Align::XMidYMid | Align::XMaxYMid => Position::Middle,
            Align::XMinYMax | Align::XMidYMax | Align::XMaxYMax => Position::End,
        }
    }
}

/// What holds where none is given: in the middle, meet.
impl Default for Aspect {
    ghost is_default = { λ aspect. aspect ≡ default_aspect };

    #[tactic(auto, unfolding(crate::specs::Fit::default_aspect))]
    fn default() -> Aspect {
        Aspect {
            align: Align::XMidYMid,
            slice: false,
        }
    }
}

impl Aspect {
    // The one scale of both sides, or with no alignment a scale of each.
    #[tactic(auto, unfolding(crate::specs::Fit::scales))]
    fn scales(self, sx: f32, sy: f32) -> (f32, f32)
        ensures { result ≡ scales self sx sy }
    {
        if self.align == Align::None {
            return (sx, sy);
        }
        let s = if self.slice {
            larger(sx, sy)
        } else {
            smaller(sx, sy)
        };
        (s, s)
    }
}

fn smaller(x: f32, y: f32) -> f32
    ensures { result ≡ smaller x y }
{
    if y < x { y } else { x }
}

fn larger(x: f32, y: f32) -> f32
    ensures { result ≡ larger x y }
{
    if x < y { y } else { x }
}

// The start of a side at `start` that has `spare` left over.
#[tactic(auto, using(crate::proofs::Constants::two_is), unfolding(crate::specs::Fit::aligned))]
fn aligned(position: Position, start: f32, spare: f32) -> f32
    ensures { result ≡ aligned position start spare }
{
    match position {
        Position::Start => start,
        Position::Middle => start + spare / 2.0,
        Position::End => start + spare,
    }
}

impl ViewBox {
    /// The matrix that fits the view box into a size.
    #[tactic(auto, using(crate::proofs::Constants::zero_is), unfolding(crate::specs::Fit::fit))]
    pub fn to_transform(self, size: Size) -> Matrix
        ensures { result ≡ fit self size }
    {
        let rect = self.rect;
        let align = self.aspect.align;
        let (sx, sy) = self.aspect.scales(size.w / rect.w, size.h / rect.h);
        let e = aligned(align.across(), -rect.x * sx, size.w - rect.w * sx);
        let f = aligned(align.down(), -rect.y * sy, size.h - rect.h * sy);
        Matrix {
            a: sx,
            b: 0.0,
            c: 0.0,
            d: sy,
            e,
            f,
        }
    }
}
