// The receiver: one line after the other into a lent store, with what that means for what was sent.
#![tactic(auto)]

mod batch;
mod checked;
mod entry;
mod laws;
mod refusal;
mod rows;

pub use batch::{lines_refusal_place, take_lines};
pub use entry::{Counts, Done, receive, refusal_place, take_line};
pub use laws::order_laws;
pub use refusal::Refusal;
pub use rows::row;

#[cfg(test)]
mod tests;
