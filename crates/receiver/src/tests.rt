// Lines to try, on a store of one slot and on one of two.
use crate::{
    Counts, Done, Refusal, lines_refusal_place, receive, refusal_place, row, take_line, take_lines,
};
use line::Line;

const SLOT: usize = 1003;

#[test]
fn bytes_of_hello(rt: HostRuntime) {
    let line = hello(3, 1);
    assert_eq!(rt;
        &line[0..12],
        [2, 73, 21, 94, 21, 2, 200, 69, 76, 76, 79, 32].as_slice()
    );
}

#[test]
fn a_version_begins_anew(rt: HostRuntime) {
    let mut store = [0u8; SLOT];
    assert_eq!(rt; take_line(&hello(3, 1), &mut store), Done::Took);
    assert_eq!(rt; start(row(&store, 18, 1)), b"HELLO".as_slice());
    let mut damaged = hello(4, 2);
    damaged[3] ^= 3;
    let before = store;
    let mut counts = Counts::default();
    let done = receive(&damaged, &mut store, &mut counts);
    assert_eq!(rt; done, Done::Lost);
    assert_eq!(rt; counts, Counts { lost: 1, full: 0 });
    assert_eq!(rt; &store[0..SLOT], &before[0..SLOT]);
    assert_eq!(rt; take_line(&hello(4, 2), &mut store), Done::Took);
    assert_eq!(rt; row(&store, 18, 1), [0; 40].as_slice());
    assert_eq!(rt; start(row(&store, 18, 2)), b"HELLO".as_slice());
}

#[test]
fn a_damaged_letter(rt: HostRuntime) {
    let mut damaged = hello(3, 1);
    damaged[8] ^= 1;
    let mut store = [0u8; SLOT];
    assert_eq!(rt; take_line(&damaged, &mut store), Done::Took);
    assert_eq!(rt; start(row(&store, 18, 1)), b"HE\0LO".as_slice());
    assert_eq!(rt; take_line(&hello(3, 1), &mut store), Done::Took);
    assert_eq!(rt; take_line(&damaged, &mut store), Done::Took);
    assert_eq!(rt; start(row(&store, 18, 1)), b"HELLO".as_slice());
}

#[test]
fn refusals(rt: HostRuntime) {
    let mut store = [0u8; 2 * SLOT];
    let line = hello(3, 1);
    assert_eq!(rt;
        take_line(&line[0..45], &mut store),
        Done::Refused(Refusal::Line)
    );
    assert_eq!(rt; refusal_place(&line[0..45], &store), Some(45));
    assert_eq!(rt; refusal_place(&line, &store), None);
    store[SLOT] = 2;
    assert_eq!(rt; take_line(&line, &mut store), Done::Refused(Refusal::Store));
    assert_eq!(rt; refusal_place(&line, &store), Some(1));
    assert_eq!(rt; refusal_place(&line, &store[0..1500]), Some(1));
    assert_eq!(rt; row(&store, 18, 1).len(), 0);
}

#[test]
fn many_lines(rt: HostRuntime) {
    let mut store = [0u8; SLOT];
    let mut counts = Counts::default();
    let mut lines = end_to_end(&hello(3, 1), &hello(3, 2));
    assert_eq!(rt; take_lines(&lines, &mut store, &mut counts), Ok(()));
    assert_eq!(rt; start(row(&store, 18, 1)), b"HELLO".as_slice());
    assert_eq!(rt; start(row(&store, 18, 2)), b"HELLO".as_slice());
    lines[49] ^= 3;
    assert_eq!(rt; take_lines(&lines, &mut store, &mut counts), Ok(()));
    assert_eq!(rt; counts, Counts { lost: 1, full: 0 });
    assert_eq!(rt; lines_refusal_place(&lines[0..91], &store), Some(91));
    store[0] = 2;
    assert_eq!(rt; lines_refusal_place(&lines, &store), Some(0));
}

#[test]
fn numbers_of_refusals(rt: HostRuntime) {
    assert_eq!(rt; u64::from(Refusal::Line), 1);
    assert_eq!(rt; u64::from(Refusal::Store), 2);
}

// A line of page 18 whose letters begin with HELLO.
fn hello(version: u8, row: u8) -> [u8; 46] {
    let mut letters = [b' '; 40];
    letters[..5].copy_from_slice(b"HELLO");
    let line = Line {
        page: 18,
        version,
        row,
        letters,
    };
    line.encode()
}

fn end_to_end(first: &[u8; 46], second: &[u8; 46]) -> [u8; 92] {
    let mut lines = [0; 92];
    lines[..46].copy_from_slice(first);
    lines[46..].copy_from_slice(second);
    lines
}

// The first letters of a row.
fn start(row: &[u8]) -> &[u8] {
    row.get(..5).unwrap_or(row)
}
