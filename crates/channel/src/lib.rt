// A model of the air, for trials and demonstrations: a seeded generator of numbers, and lines with bits turned at random.
#![tactic(auto)]

mod air;
mod random;

pub use air::{Rates, damage, turn_bits, turned_bits};
pub use random::Random;

#[cfg(test)]
mod tests;
