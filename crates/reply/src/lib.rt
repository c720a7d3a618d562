//! What commands answer, and how answers are written for programs and for people.

#![tactic(auto)]

mod answer;
mod bits;
mod people;
mod plain;
mod reply;

pub use answer::{Answer, Failure};
pub use bits::{Bits, bits_of};
pub use people::ForPeople;
pub use plain::Plain;
pub use reply::{Reply, Style, UnknownStyle};
