// Lines of 46 bytes: six numbers (page, version and row, each as sixteens and ones) and the forty letters of a row.
#![tactic(auto)]

ghost use Rattle.std.specs.Prelude.{◌≡◌, ℕ, ◌+◌, ◌*◌, ◌<◌, ◌≤◌, false, length, Decides, MatchOption, slice_index};
ghost use Rattle.coding.specs.Hamming.{distance, decode_number};
ghost use Rattle.line.specs.Line.{Valid, encode_line};
ghost use Rattle.line.specs.Reading.{readable, IsPairOf, HeaderOf};
ghost use Rattle.line.specs.Damage.{row_line, WithinLimits};
ghost use Rattle.line.specs.Laws.{ReadsPart, ReadsBrought, Undamaged};

use coding::hamming::{decode_number, encode_number, hamming_distance};
use coding::parity::encode_letter;

// The rows of a page.
pub const ROWS: usize = 25;

// The letters of a row.
pub const COLUMNS: usize = 40;

// A line as it is meant.
#[derive(Clone, Copy)]
pub struct Line {
    pub page: u8,
    pub version: u8,
    pub row: u8,
    pub letters: [u8; COLUMNS],
}

// What the six numbers of a line say. They stand in `Line` again, so that a theorem names a line's page in one word.
#[derive(Clone, Copy)]
pub struct Header {
    pub page: u8,
    pub version: u8,
    pub row: u8,
}

impl Line {
    // How many of a line's bytes are numbers.
    pub const NUMBERS: usize = 6;

    // How many are letters.
    pub const LETTERS: usize = COLUMNS;

    // How many there are in all.
    pub const LENGTH: usize = 46;

    // How many bits may be turned on the way in each number's byte.
    pub const NUMBER_LIMIT: u32 = 2;

    // How many in each letter's byte.
    pub const LETTER_LIMIT: u32 = 1;

    // The bytes that the line is sent as.
    pub fn encode(&self) -> [u8; Line::LENGTH]
        ensures bytes { result ≡ encode_line self.now }
        ensures undamaged { Valid self.now → Undamaged self.now result }
    {
        let numbers = [
            self.page / 16,
            self.page % 16,
            self.version / 16,
            self.version % 16,
            self.row / 16,
            self.row % 16,
        ];
        let mut bytes = [0; Line::LENGTH];
        bytes[..Line::NUMBERS].copy_from_slice(&numbers.map(encode_number));
        // not by `map`, which takes the forty letters one by one: 885 instructions more a line
        for (c, letter) in self.letters.iter().enumerate() {
            bytes[Line::NUMBERS + c] = encode_letter(*letter);
        }
        bytes
    }
}

// What the six numbers of a line say, or none if it can't be made out: it isn't 46 bytes long, a byte is no number, or there is no such row.
pub fn read_header(bytes: &[u8]) -> Option<Header>
    ensures header { MatchOption result (readable bytes.now ≡ false) (λ h. HeaderOf bytes.now h) }
    ensures part { ReadsPart bytes.now }
    ensures brought { ReadsBrought bytes.now }
{
    if bytes.len() != Line::LENGTH {
        return None;
    }
    let page = decode_digits(bytes[0], bytes[1])?;
    let version = decode_digits(bytes[2], bytes[3])?;
    let row = decode_digits(bytes[4], bytes[5])?;
    if usize::from(row) >= ROWS {
        return None;
    }
    Some(Header { page, version, row })
}

// The number of two hexadecimal digits, each in a byte, if both are numbers.
fn decode_digits(high: u8, low: u8) -> Option<u8>
    ensures { IsPairOf (decode_number high) (decode_number low) result }
{
    Some(16 * decode_number(high)? + decode_number(low)?)
}

// Whether bytes that came may be a copy of a line that was sent, with no more bits turned than is allowed.
pub fn within_limits(sent: &[u8], came: &[u8]) -> bool
    ensures { Decides result (WithinLimits row_line sent.now came.now) }
{
    if sent.len() != Line::LENGTH || came.len() != Line::LENGTH {
        return false;
    }
    let (sent_numbers, sent_letters) = sent.split_at(Line::NUMBERS);
    let (came_numbers, came_letters) = came.split_at(Line::NUMBERS);
    turned_at_most(sent_numbers, came_numbers, Line::NUMBER_LIMIT)
        && turned_at_most(sent_letters, came_letters, Line::LETTER_LIMIT)
}

// Whether at most `limit` bits are turned in each of as many bytes that came as were sent.
fn turned_at_most(sent: &[u8], came: &[u8], limit: u32) -> bool
    requires { length sent.now ≡ length came.now }
    ensures { Decides result ((k : ℕ) → k < length sent.now → distance (slice_index sent.now k) (slice_index came.now k) ≤ limit) }
{
    sent.iter()
        .zip(came)
        .all(|(s, c)| hamming_distance(*s, *c) <= limit)
}
