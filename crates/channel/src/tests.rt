// Numbers to draw and damage to see.
use crate::{Random, Rates, damage};
use line::{Line, within_limits};

const LINES: usize = 100;

// The bytes of a line of blanks.
fn blanks() -> [u8; Line::LENGTH] {
    let line = Line {
        page: 18,
        version: 3,
        row: 1,
        letters: [b' '; Line::LETTERS],
    };
    line.encode()
}

#[test]
fn draws(rt: HostRuntime) {
    let mut random = Random::new(1);
    assert_eq!(rt; random.next(), 5_180_492_295_206_395_165);
    assert_eq!(rt; random.below(0), 0);
    assert!(rt; random.chance(1000));
    assert!(rt; !random.chance(0));
    let mut other = Random::new(0);
    assert_ne!(rt; other.next(), 0);
}

#[test]
fn damages(rt: HostRuntime) {
    let line = blanks();
    let mut random = Random::new(7);
    let none = Rates {
        numbers: 0,
        letters: 0,
    };
    assert_eq!(rt; damage(&line, &none, &mut random), line);
    let most = Rates {
        numbers: 1000,
        letters: 1000,
    };
    for _line in 0..LINES {
        let came = damage(&line, &most, &mut random);
        assert!(rt; within_limits(&line, &came));
        for (byte, sent) in came.iter().zip(&line) {
            assert_ne!(rt; byte, sent);
        }
    }
}
