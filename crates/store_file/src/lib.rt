// The file in which a store is kept from one run to the next.
#![tactic(auto)]

mod contents;
mod file;

pub use contents::{Unusable, check_contents, new_store};
pub use file::{OpenError, open_store, read_file};
