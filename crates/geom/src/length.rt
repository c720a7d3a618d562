ghost use Rattle.std.specs.Prelude.{◌≡◌};
ghost use Rattle.geom.specs.Length.{base_of, length_in};

use crate::rect::Ruler;

/// The unit right behind a length's number.
#[derive(Clone, Copy, PartialEq, Eq, Debug)]
pub enum Unit {
    None,
    Px,
    Em,
    Ex,
    In,
    Cm,
    Mm,
    Pt,
    Pc,
    Percent,
}

/// A number with its unit.
#[derive(Clone, Copy, PartialEq, Debug)]
pub struct Length {
    pub number: f32,
    pub unit: Unit,
}

/// Which side of the viewport a percent is of.
#[derive(Clone, Copy, PartialEq, Eq, Debug)]
pub enum Direction {
    Across,
    Down,
}

/// The side of the viewport that a percent in this direction is of.
#[tactic(auto, unfolding(crate::specs::Length::base_of))]
pub fn percent_base(direction: Direction, ruler: Ruler) -> f32
    ensures { result ≡ base_of direction ruler }
{
    match direction {
        Direction::Across => ruler.w,
        Direction::Down => ruler.h,
    }
}

/// The length in user units: each operation is rounded once, from left to right.
#[tactic(auto, using(crate::proofs::Constants::two_is, crate::proofs::Constants::cm_is, crate::proofs::Constants::mm_is, crate::proofs::Constants::seventy_two_is, crate::proofs::Constants::six_is, crate::proofs::Constants::hundred_is), unfolding(crate::specs::Length::in_unit))]
pub fn convert_length(length: Length, direction: Direction, dpi: f32, ruler: Ruler) -> f32
    ensures { result ≡ length_in length (base_of direction ruler) dpi ruler.f }
{
    let n = length.number;
    match length.unit {
        Unit::None | Unit::Px => n,
        Unit::Em => n * ruler.f,
        Unit::Ex => n * ruler.f / 2.0,
        Unit::In => n * dpi,
        Unit::Cm => n * dpi / 2.54,
        Unit::Mm => n * dpi / 25.4,
        Unit::Pt => n * dpi / 72.0,
        Unit::Pc => n * dpi / 6.0,
        Unit::Percent => percent_base(direction, ruler) * n / 100.0,
    }
}
