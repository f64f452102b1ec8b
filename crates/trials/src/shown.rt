// What the receiver's calls show of a page, beside the reference and beside what was sent: versions, letters and gaps, and that no letter is false.
ghost use Rattle.std.specs.Prelude.{◌≡◌, ℕ, ◌<◌, true, false, Decides};
ghost use Rattle.store.specs.Layout.{well_formed};
ghost use Rattle.store.specs.Slots.{has_row};
ghost use Rattle.trials.specs.Same.{RowSame, RowShown, PageShown, WholeRow};

use crate::reference::{Reference, ReferencePage};
use crate::sent::Sent;
use crate::tally::Tally;
use line::{COLUMNS, ROWS};
use receiver::row;
use store::{NO_LETTER, version};

// Whether a page is shown as the reference has it, and each letter as it was sent.
pub fn shows_page(store: &[u8], reference: &Reference, number: u8, tally: &mut Tally) -> bool
    ensures { result ≡ true → well_formed store.now ≡ true → PageShown store.now reference.now number }
{
    let stands = version(store, u64::from(number));
    match reference.page(number) {
        Some(page) => stands == Some(page.version) && shows_rows(store, number, page, tally),
        None => stands.is_none() && shows_nothing(store, number),
    }
}

// Whether all pages are.
pub fn shows_pages(store: &[u8], reference: &Reference, tally: &mut Tally) -> bool
    ensures { result ≡ true → well_formed store.now ≡ true → (n : ℕ) → n < 256 → PageShown store.now reference.now n }
{
    for number in 0..=255u8 {
        if !shows_page(store, reference, number, tally) {
            return false;
        }
    }
    true
}

// Whether each row of a page is shown so.
fn shows_rows(store: &[u8], number: u8, page: &ReferencePage, tally: &mut Tally) -> bool
    ensures { result ≡ true → (r : ℕ) → r < 25 → has_row store.now number r ≡ true → RowShown store.now number page.now r }
{
    for at in 0..ROWS as u8 {
        let sent = Sent {
            page: number,
            version: page.version,
            row: at,
        };
        tally.count_row();
        if !shows_row(row(store, u64::from(number), u64::from(at)), page, sent) {
            return false;
        }
    }
    true
}

// Whether no row of a page is shown.
fn shows_nothing(store: &[u8], number: u8) -> bool
    ensures { result ≡ true → (r : ℕ) → r < 25 → has_row store.now number r ≡ false }
{
    for at in 0..ROWS as u8 {
        if !row(store, u64::from(number), u64::from(at)).is_empty() {
            return false;
        }
    }
    true
}

// Whether a row that is shown is the reference's, and each of its letters as it was sent.
fn shows_row(shown: &[u8], page: &ReferencePage, sent: Sent) -> bool
    ensures { Decides result (RowSame page.now sent shown.now) }
{
    shown.len() == COLUMNS
        && shown.iter().enumerate().all(|(column, letter)| {
            *letter == page.letter(sent.row, column)
                && (*letter == NO_LETTER || *letter == sent.letter(column))
        })
}

// Whether a row that is shown has each letter as it was sent.
pub fn whole_row(shown: &[u8], sent: Sent) -> bool
    ensures { Decides result (WholeRow sent shown.now) }
{
    shown.len() == COLUMNS
        && shown
            .iter()
            .enumerate()
            .all(|(column, letter)| *letter == sent.letter(column))
}
