// Lines applied by a search and by a directory.
ghost use Rattle.std.specs.Prelude.{◌≡◌, true};
ghost use Rattle.store.specs.Layout.{well_formed};

use crate::index::SlotIndex;
use crate::{NO_LETTER, SLOT_SIZE, Search, apply_line, read_directory, row, version};
use line::{COLUMNS, Line, read_header};
use std::test::Fail;

#[test]
fn by_a_search(rt: HostRuntime) -> Result<(), Fail> {
    let mut store = [NO_LETTER; 2 * SLOT_SIZE];
    assert!(rt; read_directory(&store).is_ok());
    if read_directory(&store).is_ok() {
        let slots = slots_of_four(&mut store, &mut Search);
        assert_eq!(rt; slots, [Some(0), Some(1), None, Some(1)]);
    }
    assert_eq!(rt; version(&store, 19), Some(4));
    assert_eq!(rt; row(&store, 18, 1), [b'A'; COLUMNS].as_slice());
    assert_eq!(rt; row(&store, 18, 2), [NO_LETTER; COLUMNS].as_slice());
    Ok(())
}

#[test]
fn by_a_directory(rt: HostRuntime) -> Result<(), Fail> {
    let mut store = [NO_LETTER; 2 * SLOT_SIZE];
    let directory = read_directory(&store);
    assert!(rt; directory.is_ok());
    if let Ok(mut directory) = directory {
        let slots = slots_of_four(&mut store, &mut directory);
        assert_eq!(rt; slots, [Some(0), Some(1), None, Some(1)]);
    }
    assert_eq!(rt; version(&store, 19), Some(4));
    assert_eq!(rt; row(&store, 18, 1), [b'A'; COLUMNS].as_slice());
    assert_eq!(rt; row(&store, 18, 2), [NO_LETTER; COLUMNS].as_slice());
    Ok(())
}

// The slots that four lines are applied in, by an index that is kept: of two pages, of a third, for which there is no room, and of the second in another version.
fn slots_of_four<I: SlotIndex>(store: &mut [u8], index: &mut I) -> [Option<usize>; 4]
    requires formed { well_formed store.old ≡ true }
    requires agrees { I.agrees store.old index.old }
{
    let first = applied(store, index, 18, 3);
    let second = applied(store, index, 19, 3);
    let third = applied(store, index, 20, 3);
    let second_anew = applied(store, index, 19, 4);
    [first, second, third, second_anew]
}

// The slot of a page, once row 1 of it was applied.
fn applied<I: SlotIndex>(store: &mut [u8], index: &mut I, page: u8, version: u8) -> Option<usize>
    requires formed { well_formed store.old ≡ true }
    requires agrees { I.agrees store.old index.old }
    ensures formed { well_formed store.new ≡ true }
    ensures agrees { I.agrees store.new index.new }
{
    let line = letters_of(page, version);
    let header = read_header(&line)?;
    apply_line(store, index, header, &line)
}

// Row 1 of a page, of the letter A.
fn letters_of(page: u8, version: u8) -> [u8; Line::LENGTH] {
    let line = Line {
        page,
        version,
        row: 1,
        letters: [b'A'; COLUMNS],
    };
    line.encode()
}
