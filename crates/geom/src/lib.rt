//! Lengths, sizes, matrices and view boxes: the arithmetic of a layout, each operation rounded once to f32.

#![tactic(auto)]

mod finite;
mod invertible;
mod length;
mod matrix;
mod opacity;
mod options;
mod rect;
mod root;
mod view_box;
mod worked;

pub use invertible::units_are_exact;
pub use length::{Direction, Length, Unit, convert_length};
pub use matrix::Matrix;
pub use opacity::is_plain;
pub use options::Options;
pub use rect::{Rect, Ruler, Size};
pub use root::{RootAttributes, RootSize, resolve_svg_size, side_or_full};
pub use view_box::{Align, Aspect, ViewBox};
pub use worked::worked_examples_stand;
