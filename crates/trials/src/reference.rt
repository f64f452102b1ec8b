// The reference: a receiver that is told which line was sent and which bits were turned on the way, and never decodes a byte.
ghost use Rattle.std.specs.Prelude.{◌≡◌, ℕ, ◌<◌, ◌≤◌, length, vec_len, Decides, count_by, is_some, option_copied, slice_index, ◌≢◌};
ghost use Rattle.trials.specs.Told.{told, letter_told, AllSent, TwoTurned, RowPut};
ghost use Rattle.trials.specs.Answers.{Due, lost_after, full_after};

use crate::came::Came;
use line::{COLUMNS, Line, ROWS};
use receiver::{Counts, Done};
use std::alloc::{AllocError, Global};
use store::NO_LETTER;

// Of a byte that came undamaged.
const NO_BITS: u8 = 0;

// How many numbers of pages there are.
pub(crate) const PAGES: usize = 256;

const PAGE_LETTERS: usize = ROWS * COLUMNS;

// A page that has to be in the store: its version, and its letters row by row.
#[derive(Clone, Copy)]
pub struct ReferencePage {
    pub version: u8,
    pub letters: [u8; PAGE_LETTERS],
}

// The pages that have to be in the store, each in its place by its number, and how many lines were lost or found no room. Each letter of a page was sent in the
// version that the page has.
#[derive(Drop)]
pub struct Reference {
    slots: usize,
    pub(crate) pages: Vec<Option<ReferencePage>>,
    pub counts: Counts,
    ghost long: { vec_len pages ≡ 256 },
    ghost sent: { AllSent pages.items },
}

impl ReferencePage {
    // A page in a version, no letter known.
    fn new(version: u8) -> ReferencePage
        ensures version { result.version ≡ version }
        ensures letters { (k : ℕ) → slice_index result.letters k ≡ 0 }
    {
        ReferencePage {
            version,
            letters: [NO_LETTER; PAGE_LETTERS],
        }
    }

    // The page with the letters of a row whose bytes came undamaged; a row that no page has is passed over.
    fn with_row(self, came: &Came) -> ReferencePage
        ensures version { result.version ≡ self.version }
        ensures put { came.now.sent.row < 25 → RowPut came.now self.letters result.letters 40 }
        ensures passed { 25 ≤ came.now.sent.row → result ≡ self }
    {
        let mut letters = self.letters;
        let row = usize::from(came.sent.row);
        if row < ROWS {
            for (column, turned) in came.bits[Line::NUMBERS..].iter().enumerate() {
                if *turned == NO_BITS {
                    letters[COLUMNS * row + column] = came.sent.letter(column);
                }
            }
        }
        ReferencePage { letters, ..self }
    }

    // Whether these are its letters.
    pub(crate) fn has_letters(&self, letters: &[u8]) -> bool
        ensures { length letters.now ≡ 1000 → Decides result ((k : ℕ) → k < 1000 → slice_index letters.now k ≡ slice_index self.now.letters k) }
    {
        self.letters.as_slice() == letters
    }

    // The letter at a row and a column; 0 where none is known.
    pub(crate) fn letter(&self, row: u8, column: usize) -> u8
        ensures { column < 40 → result ≡ letter_told self.now.letters row column }
    {
        let place = (COLUMNS * usize::from(row)).saturating_add(column);
        self.letters.get(place).copied().unwrap_or(NO_LETTER)
    }
}

impl Reference {
    // No pages, with room for so many.
    pub fn new(heap: Global, slots: usize) -> Result<Reference, AllocError> {
        Ok(Reference {
            slots,
            pages: vec![in heap; None; PAGES]?,
            counts: Counts::default(),
        })
    }

    // A page that is there.
    pub(crate) fn page(&self, number: u8) -> Option<&ReferencePage>
        ensures { option_copied result ≡ told self.now.pages.items number }
    {
        self.pages[usize::from(number)].as_ref()
    }

    // How many pages are there.
    fn count(&self) -> usize
        ensures { result ≡ count_by is_some self.now.pages.items }
    {
        self.pages
            .as_slice()
            .iter()
            .filter(|page| page.is_some())
            .count()
    }

    // Takes a line that comes with bits turned: what is to be answered for it.
    pub fn take(&mut self, came: &Came) -> Done
        ensures answer { Due result (TwoTurned came.now.bits) (is_some (told self.old.pages.items came.now.sent.page)) (count_by is_some self.old.pages.items) self.old.slots }
        ensures lost { self.new.counts.lost ≡ lost_after self.old.counts.lost result }
        ensures full { self.new.counts.full ≡ full_after self.old.counts.full result }
        ensures others { (n : ℕ) → n ≢ came.now.sent.page → told self.new.pages.items n ≡ told self.old.pages.items n }
    {
        if came.has_two() {
            self.counts.lost = self.counts.lost.saturating_add(1);
            return Done::Lost;
        }
        let number = usize::from(came.sent.page);
        let version = came.sent.version;
        let page = match self.pages[number] {
            Some(page) if page.version == version => page,
            None if self.count() >= self.slots => {
                self.counts.full = self.counts.full.saturating_add(1);
                return Done::Full;
            }
            _ => ReferencePage::new(version),
        };
        self.pages[number] = Some(page.with_row(came));
        Done::Took
    }
}
