// Pages for C: a row as its place and length in the store, and the version of a page.
ghost use Rattle.bridge.specs.Numbers.{RowAt, VersionOrNone};

use line::COLUMNS;
use store::{row_place, version};

// What stands for the version of a page that isn't in the store.
const NO_VERSION: u64 = 256;

// The length of a row of a page, which is then found at `place` in the store; both are 0 if the page isn't there, there is no such row, or the store isn't as it should be.
#[unsafe(no_mangle)]
pub extern "C" fn demborugy_row(store: &[u8], page: u64, at: u64, place: &mut usize) -> usize
    ensures { RowAt store.now page at place.new result }
{
    // by a `match`: of the pair that `map_or` gives, the proof knows nothing
    match row_place(store, page, at) {
        Some(found) => {
            *place = found;
            COLUMNS
        }
        None => {
            *place = 0;
            0
        }
    }
}

// The version in which a page stands in the store; 256 if the page isn't there, or the store isn't as it should be.
#[unsafe(no_mangle)]
pub extern "C" fn demborugy_version(store: &[u8], page: u64) -> u64
    ensures { VersionOrNone store.now page result }
{
    version(store, page).map_or(NO_VERSION, u64::from)
}
