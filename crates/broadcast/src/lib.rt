// From text to screen: the calls that both programs make at their ends, and the theorem that joins them.
#![tactic(auto)]

mod sending;
mod showing;

pub use sending::next_line;
pub use showing::{show_row, shown_version};
