// What is asked of a store: a row of a page, handed back as a part of the lent store, and the page's version.
ghost use Rattle.std.specs.Prelude.{◌≡◌, true, false, ◌&&◌, MatchOption};
ghost use Rattle.store.specs.Layout.{well_formed, page_in};
ghost use Rattle.store.specs.Slots.{has_row, RowPlace, RowOf, VersionOf};
ghost use Rattle.store.specs.Writes.{Found};

use crate::check::read_directory;
use crate::index::SlotIndex;
use crate::layout::{row_start, version_in};
use line::{COLUMNS, ROWS};

// The slot that holds a page; none if the page isn't there, or the store isn't as it should be.
fn slot_of(store: &[u8], page: u64) -> Option<usize>
    ensures { MatchOption result ((well_formed store.now && (page_in store.now page).there) ≡ false) (λ i. (well_formed store.now ≡ true) × Found store.now page i) }
{
    let page = u8::try_from(page).ok()?;
    let directory = read_directory(store).ok()?;
    directory.find(store, page)
}

// Where a row begins in the store; none if the page isn't there, there is no such row, or the store isn't as it should be.
pub fn row_place(store: &[u8], page: u64, at: u64) -> Option<usize>
    ensures { MatchOption result (has_row store.now page at ≡ false) (λ p. RowPlace store.now page at p) }
{
    if at >= ROWS as u64 {
        return None;
    }
    let slot = slot_of(store, page)?;
    Some(row_start(slot, at as usize))
}

// The forty letters of a row, 0 where none is known; nothing if the page isn't there, there is no such row, or the store isn't as it should be.
pub fn row<'a>(store: &'a [u8], page: u64, at: u64) -> &'a [u8]
    ensures { RowOf store.now page at result.now }
{
    // a part of no bytes stands for no row, as the format has it
    match row_place(store, page, at) {
        Some(place) => &store[place..place + COLUMNS],
        None => &store[0..0],
    }
}

// The version in which a page stands in the store; none if the page isn't there, or the store isn't as it should be.
pub fn version(store: &[u8], page: u64) -> Option<u8>
    ensures { MatchOption result ((well_formed store.now && (page_in store.now page).there) ≡ false) (λ v. VersionOf store.now page v) }
{
    let slot = slot_of(store, page)?;
    Some(version_in(store, slot))
}
