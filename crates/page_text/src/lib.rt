// Page texts: pages as people write them, a heading and then numbered rows, read into pages of 25 rows of 40 letters.
#![tactic(auto)]

ghost use Rattle.std.specs.Prelude.{◌≡◌, ◌*◌, [], length, take, drop, Some, EachIndex, slice_index_or};
ghost use Rattle.line.specs.Size.{rows, columns};
ghost use Rattle.page_text.specs.declared.TextError.TheVariants.{Memory};
ghost use Rattle.page_text.specs.Code.{error_text};

use line::{COLUMNS, ROWS};
use std::alloc::{AllocError, AllocFailed};
use std::error::Error;
use std::fmt;

mod items;
mod reading;
mod row;
mod sending;
#[cfg(test)]
mod tests;
mod words;
mod writing;

pub use reading::read_pages;
pub use writing::write_page;

const NEWLINE: u8 = b'\n';

const BLANK: u8 = b' ';

const PAGE_LETTERS: usize = ROWS * COLUMNS;

// The number of a text that can't be read.
pub const REFUSED_TEXT: u64 = 3;

// A page as its text gives it: 25 rows of 40 letters, row by row.
#[derive(Drop)]
pub struct Page {
    pub number: u8,
    pub version: u8,
    pub letters: [u8; PAGE_LETTERS],
}

impl Page {
    // The letters of each row.
    #[tactic(auto, using(crate::proofs::ValidLines::chunk_at))]
    fn rows(&self) -> &[[u8; COLUMNS]]
        ensures long { length result.now ≡ rows }
        ensures each { EachIndex result.now (λ r. slice_index_or result.now r [] ≡ take columns (drop (columns * r) self.now.letters)) }
    {
        let (rows, _) = self.letters.as_chunks();
        rows
    }
}

// Why a text was turned away: the place of its first line that can't be read, counted from 0, or a want of memory.
#[derive(Drop, Debug)]
pub enum TextError {
    Refused(usize),
    Memory,
}

impl fmt::Display for TextError {
    ghost output = { λ e. Some (error_text e) };

    fn fmt<W: fmt::Write>(&self, f: &mut fmt::Formatter<W>) -> fmt::Result {
        match self {
            TextError::Refused(place) => write!(f, "refused {REFUSED_TEXT}, place {place}"),
            TextError::Memory => write!(f, "no memory"),
        }
    }
}

impl Error for TextError {}

// The two conversions are written by hand, since a clause of each names the variant that `?` makes.
impl From<AllocError> for TextError {
    ghost from_gives = { λ _ r. r ≡ Memory };

    fn from(_e: AllocError) -> TextError {
        TextError::Memory
    }
}

impl<T: Drop> From<AllocFailed<T>> for TextError {
    ghost from_gives = { λ _ r. r ≡ Memory };

    fn from(_e: AllocFailed<T>) -> TextError {
        TextError::Memory
    }
}
