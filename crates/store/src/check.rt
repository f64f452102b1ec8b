// Whether a store is as it should be: one pass over each slot, which lists the pages on its way.
ghost use Rattle.std.specs.Prelude.{◌≡◌, ℕ, true, List, length, MatchOption, MatchResult};
ghost use Rattle.store.specs.Layout.{slot_bytes, letters_fine, slot_fine, well_formed, FirstFault};
ghost use Rattle.store.specs.Directory.{ListsBelow, Lists};

use crate::directory::Directory;
use crate::layout::{LETTERS_AT, MARK_AT, MOST_SLOTS, PAGE_AT, SLOT_SIZE, TAKEN};
use coding::parity::{FIRST_LETTER, SEVEN_BITS};

// The bits of the numbers below the letters.
const BELOW_LETTERS: u8 = 31;

// Whether letters are fine, each a letter or 0. There is no branch and no early end, so that it is vectorised: a byte from 1 to 31 leaves one of the lower five
// bits in `low`, and one past the letters leaves the highest bit in `high`.
fn letters_fine(letters: &[u8]) -> bool
    ensures { result ≡ letters_fine letters.now 0 (length letters.now) }
{
    let mut low = 0;
    let mut high = 0;
    for byte in letters {
        low |= (*byte).min(FIRST_LETTER);
        high |= *byte;
    }
    (low & BELOW_LETTERS) | (high & SEVEN_BITS) == 0
}

// Whether a slot's bytes are as they should be, where `entries` has the pages of the slots before it.
fn slot_fine(slot: usize, bytes: &[u8], entries: &[Option<u8>; 256]) -> bool
    ensures { (s : List ℕ) → bytes.now ≡ slot_bytes s slot → ListsBelow s entries.now slot → result ≡ slot_fine s slot }
{
    if slot >= MOST_SLOTS || bytes.len() < SLOT_SIZE {
        return false;
    }
    let taken = bytes[MARK_AT] == TAKEN;
    let marked = bytes[MARK_AT] <= TAKEN;
    let lettered = letters_fine(&bytes[LETTERS_AT..SLOT_SIZE]);
    let twice = entries[usize::from(bytes[PAGE_AT])].is_some() & taken;
    marked & (lettered & !twice)
}

// Checks a store and lists its pages, in one pass: its directory, or the first slot that isn't as it should be. A slot that is cut, or past the sixtieth, is such a one.
pub fn read_directory(store: &[u8]) -> Result<Directory, usize>
    ensures { MatchResult result (λ d. (well_formed store.now ≡ true) × Lists store.now d) (λ i. FirstFault store.now i) }
{
    let mut entries = [None; 256];
    for (slot, bytes) in store.chunks(SLOT_SIZE).enumerate() {
        if !slot_fine(slot, bytes, &entries) {
            return Err(slot);
        }
        if bytes[MARK_AT] == TAKEN {
            entries[usize::from(bytes[PAGE_AT])] = u8::try_from(slot).ok();
        }
    }
    Ok(Directory::new(entries))
}

// The first slot that isn't as it should be, or none in a store that is well-formed.
pub fn find_fault(store: &[u8]) -> Option<usize>
    ensures { MatchOption result (well_formed store.now ≡ true) (λ i. FirstFault store.now i) }
{
    read_directory(store).err()
}
