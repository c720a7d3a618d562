//! The rules of groups: for one element, given what holds outside it, the groups it puts round its content and what holds inside.

#![tactic(auto)]

mod clip;
mod drawn;
mod groups;
mod rectangle;
mod root;
mod rules;
mod state;
mod worked;

pub use drawn::is_drawn;
pub use root::convert_root;
pub use rules::{
    Converted, convert_g, convert_group, convert_leaf, convert_svg, convert_symbol, convert_use,
    convert_use_other, convert_use_symbol,
};
pub use state::State;
pub use worked::all_worked_examples_stand;
