// The codes of bytes on the air: numbers by a Hamming 8/4 code, letters by odd parity.
#![tactic(auto)]

pub mod hamming;
pub mod laws;
pub mod parity;
mod tables;
#[cfg(test)]
mod tests;
