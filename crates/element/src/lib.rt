//! What a node of a document is, apart from its place: its kind and its attributes.

#![tactic(auto)]

mod element;
mod form;
mod value;
mod word;

pub use element::Element;
pub use form::FromValue;
pub use value::{ATTRIBUTES, Attribute, Kind, Role, Value};
pub use word::{Word, word_of};
