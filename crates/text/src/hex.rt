// Lines in hex: bytes as two digits each, with blanks between them.
ghost use Rattle.std.specs.Prelude.{◌≡◌, ◌+◌, ◌*◌, ◌/◌, ◌<◌, ◌≤◌, true, [], ◌++◌, length, Some, None, is_ok, OnOk, OnErr, IsErrOf, IsOkUnless, MatchOption, if◌then◌else◌, vec_capacity, string_bytes, string_len, string_capacity};
ghost use Rattle.text.specs.Hex.{digit_value, byte_of, hex_bytes, line_bytes, digit_of, hex_byte, hex_text, WrittenIsRead};
ghost use Rattle.text.specs.declared.hex.HexError.TheVariants.{NotHex, Memory};

use std::alloc::AllocError;

mod digits;

use crate::lines::trim_return;
use crate::room;
use digits::DIGITS;

const BLANK: u8 = b' ';

// Values from here on are no digit's.
const RADIX: u8 = 16;
// The most characters that a byte is written as: two digits and a blank.
const WIDTH: usize = 3;

// Why a line of text gives no bytes.
#[derive(Clone, Copy, Debug, PartialEq, Eq)]
pub enum HexError {
    // It isn't bytes in hex.
    NotHex,
    // There is no memory for them.
    Memory(AllocError),
}

impl From<AllocError> for HexError {
    ghost from_gives = { λ none r. r ≡ Memory none };

    fn from(none: AllocError) -> HexError {
        HexError::Memory(none)
    }
}

// The bytes that a line of text spells, into `bytes`, whose old contents are dropped; no bytes where there is an error.
// No memory is asked for where `bytes` has room for half as many bytes as the text has.
#[tactic(auto, using(crate::proofs::HexRoundTrip::written_is_read, crate::proofs::LineEnds::return_short), unfolding(crate::specs::Hex::line_bytes))]
pub fn read_hex(text: &[u8], bytes: &mut Vec<u8>) -> Result<(), HexError>
    ensures spelt { OnOk result (line_bytes text.now ≡ Some bytes.new.items) }
    ensures not_hex { IsErrOf result HexError.NotHex → line_bytes text.now ≡ None }
    ensures emptied { OnErr result (bytes.new.items ≡ []) }
    ensures room { length text.now / 2 ≤ vec_capacity bytes.old → IsOkUnless result HexError.NotHex }
    ensures law { WrittenIsRead }
{
    bytes.clear();
    let line = trim_return(text);
    bytes.reserve(line.len() / 2)?;
    match fill(line, bytes) {
        Some(()) => Ok(()),
        None => {
            bytes.clear();
            Err(HexError::NotHex)
        }
    }
}

// Puts the bytes that a line spells into `bytes`, which is empty and has room; none where it spells no bytes, and then
// only some are there.
fn fill(line: &[u8], bytes: &mut Vec<u8>) -> Option<()>
    requires empty { bytes.old.items ≡ [] }
    requires room { length line.now / 2 ≤ vec_capacity bytes.old }
    ensures { MatchOption result (hex_bytes line.now ≡ None) (λ _. hex_bytes line.now ≡ Some bytes.new.items) }
{
    let mut codes = line.iter();
    while let Some(high) = codes.next() {
        if *high != BLANK {
            let low = codes.next()?;
            bytes.push_reserved(byte_of(*high, *low)?);
        }
    }
    Some(())
}

// The byte that two digits spell.
#[tactic(auto, using(std::proofs::lemmas::Bool::Decides::nat_tests), unfolding(crate::specs::Hex::byte_of))]
fn byte_of(high: u8, low: u8) -> Option<u8>
    ensures { result ≡ byte_of high low }
{
    Some(RADIX * digit_value(high)? + digit_value(low)?)
}

// The value of a hex digit; none of what is no digit.
fn digit_value(code: u8) -> Option<u8>
    ensures { MatchOption result (16 ≤ digit_value code) (λ value. (value ≡ digit_value code) × (value < 16)) }
{
    let value = DIGITS[usize::from(code)];
    (value < RADIX).then_some(value)
}

// Appends bytes as two lower-case digits each, one blank between two. Where there is no memory for it, the text stays
// as it was; none is asked for where there is room for three characters a byte.
pub fn write_hex(bytes: &[u8], out: &mut String) -> Result<(), AllocError>
    ensures written { string_bytes out.new ≡ (if is_ok result then string_bytes out.old ++ hex_text bytes.now else string_bytes out.old) }
    ensures room { string_len out.old + length bytes.now * 3 ≤ string_capacity out.old → is_ok result ≡ true }
    ensures law { WrittenIsRead }
{
    // by hand: what `write!` leaves where there is no memory isn't known
    room::reserve(out, bytes.len(), WIDTH)?;
    for (i, byte) in bytes.iter().enumerate() {
        if i > 0 {
            room::push(out, ' ');
        }
        write_byte(*byte, out);
    }
    Ok(())
}

// Appends the two digits of a byte, for which there is room.
fn write_byte(byte: u8, out: &mut String)
    requires { string_len out.old + 2 ≤ string_capacity out.old }
    ensures bytes { string_bytes out.new ≡ string_bytes out.old ++ hex_byte byte }
    ensures len { string_len out.new ≡ string_len out.old + 2 }
    ensures capacity { string_capacity out.old ≤ string_capacity out.new }
{
    room::push(out, digit_of(byte / RADIX));
    room::push(out, digit_of(byte % RADIX));
}

// The lower-case digit of a value.
#[tactic(auto, using(std::proofs::lemmas::Bool::Decides::nat_tests), unfolding(crate::specs::Hex::digit_of))]
fn digit_of(value: u8) -> char
    requires { value < 16 }
    ensures { result ≡ digit_of value }
{
    char::from(if value < 10 {
        b'0' + value
    } else {
        b'a' - 10 + value
    })
}

#[cfg(test)]
mod tests {
    use super::*;
    use std::test::Fail;

    #[test]
    fn lines_to_read(rt: HostRuntime) -> Result<(), Fail> {
        let mut bytes = Vec::new(rt.alloc());
        assert_eq!(rt; read_hex(b"02 49 15 5e 15 02 c8\r", &mut bytes), Ok(()));
        assert_eq!(rt;
            bytes.as_slice(),
            [0x02, 0x49, 0x15, 0x5e, 0x15, 0x02, 0xc8].as_slice()
        );
        assert_eq!(rt; read_hex(b"  0249155E1502C8 ", &mut bytes), Ok(()));
        assert_eq!(rt;
            bytes.as_slice(),
            [0x02, 0x49, 0x15, 0x5e, 0x15, 0x02, 0xc8].as_slice()
        );
        assert_eq!(rt; read_hex(b"02 0g", &mut bytes), Err(HexError::NotHex));
        assert!(rt; bytes.is_empty());
        assert_eq!(rt; read_hex(b"02 4", &mut bytes), Err(HexError::NotHex));
        assert_eq!(rt; read_hex(b"0 2", &mut bytes), Err(HexError::NotHex));
        assert_eq!(rt; read_hex(b"02\r\r", &mut bytes), Err(HexError::NotHex));
        assert_eq!(rt; read_hex(b"", &mut bytes), Ok(()));
        assert!(rt; bytes.is_empty());
        Ok(())
    }

    #[test]
    fn bytes_to_write(rt: HostRuntime) -> Result<(), Fail> {
        let mut out = String::from_str(rt.alloc(), "> ")?;
        write_hex(&[0x02, 0x49, 0x15, 0x5e, 0x15, 0x02, 0xc8], &mut out)?;
        assert_eq!(rt; out.as_str(), "> 02 49 15 5e 15 02 c8");
        write_hex(&[], &mut out)?;
        assert_eq!(rt; out.as_str(), "> 02 49 15 5e 15 02 c8");
        Ok(())
    }
}
