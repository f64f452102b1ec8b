// Text that every program reads and writes: numbers, line ends, lines in hex, and rows as they are shown.
#![tactic(auto)]

pub mod hex;
pub mod lines;
pub mod number;
mod room;
pub mod screen;
