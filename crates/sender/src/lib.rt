// The sender: which line goes next.
#![tactic(auto)]

mod turns;

pub use turns::{Schedule, Turn, look_ahead, next};
