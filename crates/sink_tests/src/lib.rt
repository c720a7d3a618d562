//! Tests of sinks, over a sink that keeps its records in a vector.

#![tactic(auto)]

mod notebook;

pub use notebook::Notebook;

#[cfg(test)]
mod tests;
