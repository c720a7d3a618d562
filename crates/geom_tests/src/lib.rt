//! Tests of the layout's arithmetic at its edges, and of reading an element's attributes.
//! The expected floats were worked out from the rules in exact fractions, each operation rounded to the nearest f32.

#![tactic(auto)]

#[cfg(test)]
mod bits;
#[cfg(test)]
mod elements;
#[cfg(test)]
mod fits;
#[cfg(test)]
mod lengths;
#[cfg(test)]
mod matrices;
#[cfg(test)]
mod records;
#[cfg(test)]
mod refusals;
#[cfg(test)]
mod roots;
#[cfg(test)]
mod sizes;
