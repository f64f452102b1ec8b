// Page texts by example: what is read, and where each kind of bad line is refused.
use super::*;
use std::alloc::Global;
use std::process::Abort;
use std::test::Fail;

// Where a text is refused, if it is.
fn refusal(heap: Global, text: &[u8]) -> Result<Option<usize>, TextError> {
    match read_pages(heap, text) {
        Ok(_pages) => Ok(None),
        Err(TextError::Refused(place)) => Ok(Some(place)),
        Err(TextError::Memory) => Err(TextError::Memory),
    }
}

// Whether a text is read as page 18, version 3, with HELLO in row 1 and blanks elsewhere.
fn greets(rt: &impl Abort, heap: Global, text: &[u8]) -> Result<(), Fail> {
    let pages = read_pages(heap, text)?;
    assert!(rt; pages.len() == 1);
    assert_eq!(rt; pages[0].number, 18);
    assert_eq!(rt; pages[0].version, 3);
    let mut wanted = [BLANK; PAGE_LETTERS];
    wanted[40..45].copy_from_slice(b"HELLO");
    assert_eq!(rt; pages[0].letters, wanted);
    Ok(())
}

#[test]
fn reads_a_page(rt: HostRuntime) -> Result<(), Fail> {
    greets(&rt, rt.alloc(), b"page 18 version 3\n1 HELLO\n")?;
    greets(
        &rt,
        rt.alloc(),
        b"# a comment\r\n\r\npage 18 version 3\r\n1 HELLO\r\n",
    )?;
    greets(&rt, rt.alloc(), b"page 018 version 003\n01 HELLO")
}

#[test]
fn reads_what_it_writes(rt: HostRuntime) -> Result<(), Fail> {
    let none = read_pages(rt.alloc(), b"")?;
    assert_eq!(rt; none.len(), 0);
    let pages = read_pages(rt.alloc(), b"page 18 version 3\n1 HELLO\n")?;
    assert!(rt; pages.len() == 1);
    let text = write_page(rt.alloc(), &pages[0])?;
    greets(&rt, rt.alloc(), text.as_slice())
}

#[test]
fn refuses_bad_lines(rt: HostRuntime) -> Result<(), Fail> {
    let cases: [(&[u8], Option<usize>); 13] = [
        (b"hello", Some(0)),
        (b"\n# rows\n1 A\n", Some(2)),
        (b"page 256 version 0", Some(0)),
        (b"page 1 version 0000", Some(0)),
        (b"page 1 version 0 ", Some(0)),
        (b"page 1 version 0\n25 A", Some(1)),
        (b"page 1 version 0\n1", Some(1)),
        (b"page 1 version 0\n1 A\tB", Some(1)),
        (b"page 1 version 0\n1 A\r\r\n", Some(1)),
        (
            b"page 1 version 0\n1 0123456789012345678901234567890123456789\n2 ",
            None,
        ),
        (
            b"page 1 version 0\n1 01234567890123456789012345678901234567890",
            Some(1),
        ),
        (b"page 1 version 0\n1 A\n01 B", Some(2)),
        (b"page 1 version 0\n1 A\npage 1 version 1", Some(2)),
    ];
    for (text, place) in cases {
        assert_eq!(rt; refusal(rt.alloc(), text)?, place);
    }
    Ok(())
}

#[test]
fn prints_why(rt: HostRuntime) -> Result<(), Fail> {
    let refused = TextError::Refused(4).to_string(rt.alloc())?;
    assert_eq!(rt; refused.as_str(), "refused 3, place 4");
    let memory = TextError::Memory.to_string(rt.alloc())?;
    assert_eq!(rt; memory.as_str(), "no memory");
    Ok(())
}
