// The directory of a store: in which slot each page stands. It is made while the store is checked, and kept as pages are begun, so that no line that is taken searches for its page.
ghost use Rattle.std.specs.Prelude.{◌≡◌};
ghost use Rattle.store.specs.Directory.{Lists};
ghost use Rattle.store.specs.Kept.{lists_kept};

use crate::index::SlotIndex;
use crate::layout::SLOT_SIZE;
use crate::slots::free_from;

// The slot of each page by its number, and how many slots from the first on are known not to be free.
#[derive(Clone, Copy)]
pub struct Directory {
    entries: [Option<u8>; 256],
    taken: usize,
}

impl Directory {
    // The directory with these slots of pages; of no slot is it known that it isn't free.
    pub(crate) fn new(entries: [Option<u8>; 256]) -> Directory
        ensures slots { result.entries ≡ entries }
        ensures taken { result.taken ≡ 0 }
    {
        Directory { entries, taken: 0 }
    }
}

impl SlotIndex for Directory {
    ghost agrees = { Lists };

    fn find(&self, _store: &[u8], page: u8) -> Option<usize> {
        self.entries[usize::from(page)].map(usize::from)
    }

    fn free_slot(&mut self, store: &[u8]) -> Option<usize> {
        let free = free_from(store, self.taken);
        self.taken = free.unwrap_or(store.len() / SLOT_SIZE);
        free
    }

    fn note(&mut self, page: u8, slot: usize) {
        // a slot's number is below 60, so it is one of 8 bits
        self.entries[usize::from(page)] = u8::try_from(slot).ok();
    }

    ghost kept = { lists_kept };
}
