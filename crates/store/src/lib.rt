// The store of pages: the layout of its bytes, its check, the slots that pages stand in, and the rows that are handed back.
#![tactic(auto)]

mod check;
mod directory;
mod index;
mod lanes;
mod layout;
mod merge;
mod rows;
mod search;
mod slots;

pub use check::{find_fault, read_directory};
pub use directory::Directory;
pub use layout::{MOST_SLOTS, NO_LETTER, SLOT_SIZE};
pub use merge::apply_line;
pub use rows::{row, row_place, version};
pub use search::Search;

#[cfg(test)]
mod tests;
