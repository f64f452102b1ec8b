// The receiver for C: its entries as functions on numbers and slices, which `include/demborugy.h` declares.
#![tactic(auto)]

mod lines;
mod pages;

pub use lines::{
    demborugy_lines_refusal_place, demborugy_refusal_place, demborugy_take_line,
    demborugy_take_lines,
};
pub use pages::{demborugy_row, demborugy_version};
