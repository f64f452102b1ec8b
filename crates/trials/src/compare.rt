// The store beside the reference, byte by byte: that it is well-formed, that each page in it is as the reference has it, and that none is missing.
ghost use Rattle.std.specs.Prelude.{◌≡◌, ℕ, ◌<◌, true, length, IsSome, Decides, slice_index};
ghost use Rattle.store.specs.Layout.{slots, slot_bytes, mark_at};
ghost use Rattle.store.specs.Writes.{Found};
ghost use Rattle.trials.specs.Told.{told};
ghost use Rattle.trials.specs.Same.{Same, TrueLetters, SlotSame, OthersSame, Kept};

use crate::reference::Reference;
use receiver::Done;
use store::{SLOT_SIZE, find_fault};

// The mark of a slot that holds a page. It stands here again, for the trials look at the bytes of a store by themselves and don't trust its calls.
pub(crate) const TAKEN: u8 = 1;

// Here and in shown.rt a store and a reference are two arguments: all that holds both is `Receiving`, with the receiver's counts, which no comparison is to see.

// Whether a store is well-formed and shows each page as the reference has it; then no letter in it is false.
pub fn same_pages(store: &[u8], reference: &Reference) -> bool
    ensures same { Decides result (Same store.now reference.now) }
    ensures letters { result ≡ true → TrueLetters store.now }
{
    if find_fault(store).is_some() {
        return false;
    }
    same_slots(store, reference) && none_missing(store, reference)
}

// Whether each page that stands in the store is as the reference has it.
fn same_slots(store: &[u8], reference: &Reference) -> bool
    ensures { Decides result ((i : ℕ) → i < slots store.now → mark_at store.now i ≡ 1 → SlotSame (slot_bytes store.now i) reference.now) }
{
    store
        .chunks_exact(SLOT_SIZE)
        .all(|slot| same_slot(slot, reference))
}

// Whether the page of a slot, if it holds one, is as the reference has it.
fn same_slot(slot: &[u8], reference: &Reference) -> bool
    ensures { length slot.now ≡ 1003 → Decides result (slice_index slot.now 0 ≡ 1 → SlotSame slot.now reference.now) }
{
    let [TAKEN, number, version, letters @ ..] = slot else {
        return true;
    };
    match reference.page(*number) {
        Some(page) => page.version == *version && page.has_letters(letters),
        None => false,
    }
}

// Whether each page of the reference stands in the store.
fn none_missing(store: &[u8], reference: &Reference) -> bool
    ensures { Decides result ((n : ℕ) → n < 256 → IsSome (told reference.now.pages.items n) → (i : ℕ) × Found store.now n i) }
{
    for number in 0..=255u8 {
        if reference.page(number).is_some() && !holds_page(store, number) {
            return false;
        }
    }
    true
}

// Whether a page stands in the store.
fn holds_page(store: &[u8], number: u8) -> bool
    ensures { Decides result ((i : ℕ) × Found store.now number i) }
{
    let mut slots = store.chunks_exact(SLOT_SIZE);
    slots.any(|slot| slot.starts_with(&[TAKEN, number]))
}

// Whether a line left what it may not change: all but the slot of its page if it was taken, and every byte if it wasn't.
pub(crate) fn keeps_bytes(before: &[u8], after: &[u8], answer: Done, page: u8) -> bool
    ensures { Decides result (Kept before.now after.now answer page) }
{
    match answer {
        Done::Took => same_others(before, after, page),
        Done::Lost | Done::Full | Done::Refused(_) => before == after,
    }
}

// Whether each slot but that of a page is as it was.
fn same_others(before: &[u8], after: &[u8], page: u8) -> bool
    ensures { Decides result (OthersSame before.now after.now page) }
{
    let mut slots = before
        .chunks_exact(SLOT_SIZE)
        .zip(after.chunks_exact(SLOT_SIZE));
    before.len() == after.len()
        && slots.all(|(old, new)| new.starts_with(&[TAKEN, page]) || old == new)
}
