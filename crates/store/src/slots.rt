// The slots of a store: which one is free, and a slot begun with a page.
ghost use Rattle.std.specs.Prelude.{◌≡◌, ℕ, ◌+◌, ◌<◌, ◌≤◌, true, length, MatchOption, ◌≢◌};
ghost use Rattle.store.specs.Layout.{slots, mark_at, well_formed};
ghost use Rattle.store.specs.Slots.{NoRoom};
ghost use Rattle.store.specs.Directory.{TakenBelow};
ghost use Rattle.store.specs.Writes.{Free, Begun, Claimed};

use crate::index::SlotIndex;
use crate::layout::{
    FREE, LETTERS, LETTERS_AT, MARK_AT, NO_LETTER, PAGE_AT, SLOT_SIZE, TAKEN, VERSION_AT,
    version_in,
};

// The lowest slot that is free, where none of the first `taken` is.
pub(crate) fn free_from(store: &[u8], taken: usize) -> Option<usize>
    requires { TakenBelow store.now taken }
    ensures { MatchOption result ((k : ℕ) → k < slots store.now → mark_at store.now k ≢ 0) (λ i. Free store.now i) }
{
    (taken..store.len() / SLOT_SIZE).find(|&slot| store[SLOT_SIZE * slot + MARK_AT] == FREE)
}

// A slot begun with a page, no letter known.
fn begin(store: &mut [u8], slot: usize, page: u8, version: u8)
    requires { slot < slots store.old }
    ensures { Begun store.old store.new slot page version }
{
    let at = SLOT_SIZE * slot;
    store[at + LETTERS_AT..at + LETTERS_AT + LETTERS].fill(NO_LETTER);
    store[at + MARK_AT] = TAKEN;
    store[at + PAGE_AT] = page;
    store[at + VERSION_AT] = version;
}

// The slot of a page in a version, begun anew where it has to be; none if there is no room.
pub(crate) fn claim_slot<I: SlotIndex>(
    store: &mut [u8],
    index: &mut I,
    page: u8,
    version: u8,
) -> Option<usize>
    requires formed { well_formed store.old ≡ true }
    requires agrees { I.agrees store.old index.old }
    ensures slot { MatchOption result (NoRoom store.old page × (store.new ≡ store.old)) (λ i. Claimed store.old store.new page version i) }
    ensures formed { well_formed store.new ≡ true }
    ensures agrees { I.agrees store.new index.new }
{
    if let Some(slot) = index.find(store, page) {
        let stale = version_in(store, slot) != version;
        if stale {
            begin(store, slot, page, version);
        }
        return Some(slot);
    }
    let slot = index.free_slot(store)?;
    begin(store, slot, page, version);
    index.note(page, slot);
    Some(slot)
}
