// Bytes to try.
use crate::hamming::{decode_number, encode_number, hamming_distance};
use crate::parity::{decode_letter, encode_letter};

#[test]
fn numbers(rt: HostRuntime) {
    assert_eq!(rt; decode_number(21), Some(0));
    assert_eq!(rt; decode_number(20), Some(0));
    assert_eq!(rt; decode_number(22), None);
    assert_eq!(rt; decode_number(2 ^ 128), Some(1));
    assert_eq!(rt; decode_number(73 ^ 128), Some(2));
    assert_eq!(rt; decode_number(94 ^ 128), Some(3));
    assert_eq!(rt; encode_number(15), 234);
    assert_eq!(rt; hamming_distance(21, 22), 2);
}

#[test]
fn letters(rt: HostRuntime) {
    assert_eq!(rt; encode_letter(b'H'), 200);
    assert_eq!(rt; decode_letter(200), Some(b'H'));
    assert_eq!(rt; decode_letter(200 ^ 4), None);
    assert_eq!(rt; decode_letter(200 ^ 5), Some(b'M'));
    assert_eq!(rt; decode_letter(32), Some(b' '));
    assert_eq!(rt; decode_letter(160), None);
    assert_eq!(rt; decode_letter(127), Some(127));
}
