// Where things stand in the store: slots of a mark (1 if a page is there), the page's number, its version, and a thousand letters.
ghost use Rattle.std.specs.Prelude.{◌≡◌, ◌^◌, ◌<◌};
ghost use Rattle.store.specs.Layout.{slots, version_at};
ghost use Rattle.store.specs.Writes.{row_start};

use line::COLUMNS;

// The bytes of a slot.
pub const SLOT_SIZE: usize = 1003;

// How many slots a store may have.
pub const MOST_SLOTS: usize = 60;

// What stands in place of a letter that isn't known.
pub const NO_LETTER: u8 = 0;

// The mark of a slot that holds a page; a free slot has `FREE`. They are bytes of the format, and so no enum.
pub(crate) const TAKEN: u8 = 1;

pub(crate) const FREE: u8 = 0;

// Where the mark, the page's number and the version stand in a slot, and where the letters begin behind them.
pub(crate) const MARK_AT: usize = 0;

pub(crate) const PAGE_AT: usize = 1;

pub(crate) const VERSION_AT: usize = 2;

pub(crate) const LETTERS_AT: usize = 3;

// The letters of a slot.
pub(crate) const LETTERS: usize = 1000;

// The version of the page in a slot.
pub(crate) fn version_in(store: &[u8], slot: usize) -> u8
    requires { slot < slots store.now }
    ensures { result ≡ version_at store.now slot }
{
    store[SLOT_SIZE * slot + VERSION_AT]
}

// Where a row of a slot begins.
pub(crate) fn row_start(slot: usize, row: usize) -> usize
    requires slot { slot < 2 ^ 32 }
    requires row { row < 2 ^ 32 }
    ensures { result ≡ row_start slot row }
{
    SLOT_SIZE * slot + LETTERS_AT + COLUMNS * row
}
