ghost use Rattle.std.specs.Prelude.{◌≡◌};
ghost use Rattle.geom.specs.Size.{valid_size, valid_rect, finite_size, finite_rect, finite_ruler, size_of, rect_floats, ruler_floats};

use crate::finite::all_finite;

/// A width and a height.
#[derive(Clone, Copy, PartialEq, Debug)]
pub struct Size {
    pub w: f32,
    pub h: f32,
}

impl Size {
    /// Whether both sides are above 0.
    #[tactic(auto, using(crate::proofs::Constants::zero_is), unfolding(crate::specs::Size::valid_size))]
    pub fn is_valid(self) -> bool
        ensures { result ≡ valid_size self }
    {
        self.w > 0.0 && self.h > 0.0
    }

    /// Whether no side is an infinity or not a number.
    #[tactic(auto, unfolding(crate::specs::Size::finite_size))]
    pub fn is_finite(self) -> bool
        ensures { result ≡ finite_size self }
    {
        all_finite([self.w, self.h])
    }
}

/// A rectangle by its corner of least x and y, its width and its height.
#[derive(Clone, Copy, PartialEq, Debug)]
pub struct Rect {
    pub x: f32,
    pub y: f32,
    pub w: f32,
    pub h: f32,
}

impl From<[f32; 4]> for Rect {
    ghost from_gives = { λ floats r. floats ≡ rect_floats r };

    fn from(floats: [f32; 4]) -> Rect {
        let [x, y, w, h] = floats;
        Rect { x, y, w, h }
    }
}

impl From<Rect> for [f32; 4] {
    ghost from_gives = { λ r floats. floats ≡ rect_floats r };

    fn from(rect: Rect) -> [f32; 4] {
        [rect.x, rect.y, rect.w, rect.h]
    }
}

impl Rect {
    /// Its width and its height.
    pub fn size(self) -> Size
        ensures { result ≡ size_of self }
    {
        Size {
            w: self.w,
            h: self.h,
        }
    }

    /// Whether both sides are above 0.
    #[tactic(auto, unfolding(crate::specs::Size::valid_size, crate::specs::Size::valid_rect))]
    pub fn is_valid(self) -> bool
        ensures { result ≡ valid_rect self }
    {
        self.size().is_valid()
    }

    /// Whether no number of it is an infinity or not a number.
    #[tactic(auto, unfolding(crate::specs::Size::finite_rect))]
    pub fn is_finite(self) -> bool
        ensures { result ≡ finite_rect self }
    {
        all_finite([self.x, self.y, self.w, self.h])
    }
}

/// What percents and font units are measured with: the viewport's sides W and H, and the font size F.
#[derive(Clone, Copy, PartialEq, Debug)]
pub struct Ruler {
    pub w: f32,
    pub h: f32,
    pub f: f32,
}

impl From<[f32; 3]> for Ruler {
    ghost from_gives = { λ floats r. floats ≡ ruler_floats r };

    fn from(floats: [f32; 3]) -> Ruler {
        let [w, h, f] = floats;
        Ruler { w, h, f }
    }
}

impl From<Ruler> for [f32; 3] {
    ghost from_gives = { λ r floats. floats ≡ ruler_floats r };

    fn from(ruler: Ruler) -> [f32; 3] {
        [ruler.w, ruler.h, ruler.f]
    }
}

impl Ruler {
    /// Whether no number of it is an infinity or not a number.
    #[tactic(auto, unfolding(crate::specs::Size::finite_ruler))]
    pub fn is_finite(self) -> bool
        ensures { result ≡ finite_ruler self }
    {
        all_finite([self.w, self.h, self.f])
    }
}
