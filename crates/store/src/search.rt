// The slot of a page, searched in the store each time.
ghost use Rattle.std.specs.Prelude.{⊤};

use crate::index::SlotIndex;
use crate::layout::{MARK_AT, PAGE_AT, SLOT_SIZE, TAKEN};
use crate::slots::free_from;

// A search of the store: it knows nothing beforehand, so it agrees with every store.
#[derive(Clone, Copy)]
pub struct Search;

impl SlotIndex for Search {
    ghost agrees = { λ s index. ⊤ };

    fn find(&self, store: &[u8], page: u8) -> Option<usize> {
        (0..store.len() / SLOT_SIZE).find(|&slot| {
            let at = SLOT_SIZE * slot;
            (store[at + MARK_AT] == TAKEN) & (store[at + PAGE_AT] == page)
        })
    }

    fn free_slot(&mut self, store: &[u8]) -> Option<usize> {
        free_from(store, 0)
    }

    fn note(&mut self, _page: u8, _slot: usize) {}

    ghost kept = { λ index s t same agreed. tt };
}
