//! How names, numbers and lengths are written, and how a line is parted into words.

#![tactic(auto)]

mod form;
mod word;

// Open, so that other crates can pass these functions on by name.
pub mod length;
pub mod name;
pub mod number;

pub use form::Form;
pub use length::{length_of, units_are_told_apart};
pub use name::{align_of, attribute_of, direction_of, form_of, kind_of, slice_of, unit_of};
pub use number::{number_of, whole_number_of};
pub use word::first_word;
