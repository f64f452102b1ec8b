// A row of a page text: its number, and the letters given for it.
ghost use Rattle.std.specs.Prelude.{◌≡◌, ◌<◌, ◌≤◌, length, Some, None, MatchOption};
ghost use Rattle.line.specs.Size.{rows, columns};
ghost use Rattle.page_text.specs.Reading.{all_letters, padded, read_row};

use super::BLANK;
use super::words::{after_word, read_number};
use coding::parity::is_letter;
use line::{COLUMNS, ROWS};

// Rows have up to two digits.
const ROW_PLACES: usize = 2;

const LAST_ROW: u8 = ROWS as u8 - 1;

// A row: its number in the page, and the letters given for it.
#[derive(Clone, Copy)]
pub(super) struct Row<'a> {
    pub(super) number: u8,
    pub(super) letters: &'a [u8],
    ghost within: { number < rows },
    ghost short: { length letters.now ≤ columns },
}

impl<'a> Row<'a> {
    // The letters of the whole row: those given, and then blanks.
    #[tactic(auto, using(crate::proofs::DraftPages::padded_is))]
    pub(super) fn padded(&self) -> [u8; COLUMNS]
        ensures { result ≡ padded self.now.letters.now }
    {
        let mut whole = [BLANK; COLUMNS];
        whole[..self.letters.len()].copy_from_slice(self.letters);
        whole
    }
}

// Whether every byte is a letter.
fn are_letters(bytes: &[u8]) -> bool
    ensures { result ≡ all_letters bytes.now }
{
    bytes.iter().all(|b| is_letter(*b))
}

// The row that a line gives, if it gives one.
#[tactic(auto, using(crate::proofs::LineWords::number_bound), unfolding(crate::specs::Reading::read_row, crate::specs::Reading::and_then))]
pub(super) fn read_row<'a>(line: &'a [u8]) -> Option<Row<'a>>
    ensures { MatchOption result (read_row line.now ≡ None) (λ x. read_row line.now ≡ Some (x.number, x.letters.now)) }
{
    let number = read_number(line, ROW_PLACES, LAST_ROW)?;
    let letters = after_word(number.rest, b" ")?;
    if letters.len() > COLUMNS || !are_letters(letters) {
        return None;
    }
    Some(Row {
        number: number.value,
        letters,
    })
}
