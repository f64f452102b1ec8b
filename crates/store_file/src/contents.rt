// What the bytes of a store's file are, and the bytes of a store with no page.
ghost use Rattle.std.specs.Prelude.{◌≡◌, ◌*◌, replicate, IfOk};
ghost use Rattle.std.specs.Option.{unwrap_or};
ghost use Rattle.store_file.specs.StoreFile.{Judged};

use std::alloc::{AllocError, Global};
use store::{MOST_SLOTS, SLOT_SIZE, find_fault};

// Why the contents of a store's file can't be received into.
#[derive(Clone, Copy, Debug, PartialEq, Eq)]
pub enum Unusable {
    // No store: the first slot that isn't as it should be.
    Fault(usize),
    // A store, of another number of slots than was asked for.
    OtherSlots,
}

// What the bytes of a file are, where a number of slots may be asked for: a store to receive into, or why they aren't. An empty
// file is a store of no slots: it is as it should be, and has room for no page.
pub fn check_contents(bytes: &[u8], asked: Option<u8>) -> Result<(), Unusable>
    ensures { Judged bytes.now asked result }
{
    if let Some(slot) = find_fault(bytes) {
        return Err(Unusable::Fault(slot));
    }
    let slots = bytes.len() / SLOT_SIZE;
    match asked {
        Some(asked) if usize::from(asked) != slots => Err(Unusable::OtherSlots),
        _ => Ok(()),
    }
}

// A store with no page, of as many slots as are asked for, or of 60.
pub fn new_store(heap: Global, slots: Option<u8>) -> Result<Vec<u8>, AllocError>
    ensures { IfOk result (λ v. v.items ≡ replicate (1003 * unwrap_or slots 60) 0) }
{
    let slots = slots.map_or(MOST_SLOTS, usize::from);
    vec![in heap; 0u8; SLOT_SIZE * slots]
}
