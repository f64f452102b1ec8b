// A line's letters merged into the store: each letter that came is set at its row and column; where none came, what was there stays.
ghost use Rattle.std.specs.Prelude.{◌≡◌, ◌+◌, ◌≤◌, true, length, MatchOption};
ghost use Rattle.line.specs.Reading.{fragment, HeaderOf};
ghost use Rattle.store.specs.Layout.{well_formed};
ghost use Rattle.store.specs.Slots.{NoRoom, Applied};
ghost use Rattle.store.specs.Writes.{Merged, MergedFrom};

use crate::index::SlotIndex;
use crate::lanes::merged;
use crate::layout::row_start;
use crate::slots::claim_slot;
use line::{Header, Line};
use std::simd::prelude::*;

// The letters of one row of the store, borrowed while a line is merged into them.
#[derive(Drop)]
struct RowLetters<'a> {
    store: &'a mut [u8],
    start: usize,
}

impl RowLetters<'_> {
    // N letters of a line from a column on.
    fn put<const N: usize>(&mut self, column: usize, line: &[u8])
        requires row { self.old.start + column + N ≤ length self.old.store.now }
        requires line { 6 + column + N ≤ length line.now }
        ensures after { MergedFrom self.old.store.now line.now self.new.store.now (self.old.start + column) (6 + column) N }
        ensures long { length self.new.store.now ≡ length self.old.store.now }
        ensures start { self.new.start ≡ self.old.start }
        ensures named { self.new.store.ghost_name ≡ self.old.store.ghost_name }
    {
        let from = Line::NUMBERS + column;
        let came = Simd::<u8, N>::from_slice(&line[from..from + N]);
        let at = self.start + column;
        let store = &mut *self.store;
        let old = Simd::<u8, N>::from_slice(&store[at..at + N]);
        merged(came, old).copy_to_slice(&mut store[at..at + N]);
    }

    // The forty letters of a line.
    fn put_line(&mut self, line: &[u8])
        requires row { self.old.start + 40 ≤ length self.old.store.now }
        requires line { length line.now ≡ 46 }
        ensures after { Merged self.old.store.now line.now self.new.store.now self.old.start 40 }
        ensures long { length self.new.store.now ≡ length self.old.store.now }
        ensures named { self.new.store.ghost_name ≡ self.old.store.ghost_name }
    {
        self.put::<16>(0, line);
        self.put::<16>(16, line);
        self.put::<8>(32, line);
    }
}

// Applies a line that was made out to a store that was checked, by an index that agrees with it, and still does then: its page's slot, or none if there is no room.
pub fn apply_line<I: SlotIndex>(
    store: &mut [u8],
    index: &mut I,
    header: Header,
    line: &[u8],
) -> Option<usize>
    requires formed { well_formed store.old ≡ true }
    requires agrees { I.agrees store.old index.old }
    requires header { HeaderOf line.now header }
    ensures applied { MatchOption result (NoRoom store.old header.page × (store.new ≡ store.old)) (λ _. Applied (fragment line.now) store.old store.new) }
    ensures agrees { I.agrees store.new index.new }
{
    let slot = claim_slot(store, index, header.page, header.version)?;
    let start = row_start(slot, usize::from(header.row));
    let mut letters = RowLetters { store, start };
    letters.put_line(line);
    Some(slot)
}
