// The lines that are sent. Their letters follow from page, version, row and column, so that a version of a page has one text and no text has to be stored.
ghost use Rattle.std.specs.Prelude.{◌≡◌, ℕ, ◌<◌, true, slice_index};
ghost use Rattle.coding.specs.Parity.{is_letter};
ghost use Rattle.trials.specs.Text.{text_letter};

use crate::draw::draw_byte;
use channel::Random;
use coding::parity::FIRST_LETTER;
use line::Line;
use std::array;

// How many letters there are, from the first on.
pub(crate) const LETTERS: u64 = 96;

// An odd number that spreads seeds which lie close together.
const SPREAD: u64 = 0x9E37_79B9_7F4A_7C15;

// A line that is sent: a row of a page in a version.
#[derive(Clone, Copy)]
pub struct Sent {
    pub page: u8,
    pub version: u8,
    pub row: u8,
}

impl Sent {
    // The letter at a column.
    #[tactic(auto, using(coding::proofs::Letters::letter_from), unfolding(crate::specs::Text::text_letter))]
    pub fn letter(&self, column: usize) -> u8
        ensures value { result ≡ text_letter self.now.page self.now.version self.now.row column }
        ensures letter { is_letter result ≡ true }
    {
        let page = u64::from(self.page) * 0x1_0000_0000;
        let version = u64::from(self.version) * 0x100_0000;
        let row = u64::from(self.row) * 0x1_0000;
        let place = (page + version + row).wrapping_add(column as u64);
        let mut random = Random::new(place.wrapping_mul(SPREAD));
        let _ = random.next();
        FIRST_LETTER + draw_byte(&mut random, LETTERS)
    }

    // The line with its letters.
    pub fn line(&self) -> Line
        ensures page { result.page ≡ self.now.page }
        ensures version { result.version ≡ self.now.version }
        ensures row { result.row ≡ self.now.row }
        ensures letters { (c : ℕ) → c < 40 → slice_index result.letters c ≡ text_letter self.now.page self.now.version self.now.row c }
    {
        Line {
            page: self.page,
            version: self.version,
            row: self.row,
            letters: array::from_fn(|column| self.letter(column)),
        }
    }
}
