// Recovery: into any store that isn't turned away, every line of one page comes once, among lines of other pages. Then the page stands whole, or there was no room for it.
ghost use Rattle.std.specs.Prelude.{◌≡◌, ℕ, ◌<◌, Bool, true, IfOk, Decides, ◌≢◌, slice_index};
ghost use Rattle.store.specs.Layout.{letter_fine, slots, mark_at};
ghost use Rattle.trials.specs.Counts.{with_recovery};
ghost use Rattle.trials.specs.Same.{StandsWhole};

use crate::came::Came;
use crate::compare::TAKEN;
use crate::draw::{draw_byte, draw_index};
use crate::sent::{LETTERS, Sent};
use crate::shown::whole_row;
use crate::tally::Tally;
use channel::{Random, Rates, turned_bits};
use coding::parity::FIRST_LETTER;
use line::ROWS;
use receiver::{Done, row, take_line};
use std::alloc::{AllocError, Global};
use std::array;
use store::{MOST_SLOTS, NO_LETTER, SLOT_SIZE, version};

// How many pages are drawn from, and how many odd numbers for the distance of their numbers.
const MOST_PAGES: u64 = 100;

// How many versions.
const VERSIONS: u64 = 4;

// How often a slot is taken at most, in a thousand; above a thousand each slot is.
const MOST_TAKEN: u64 = 1500;

// How often a letter of the store is unknown, in a thousand.
const UNKNOWN: u64 = 400;

// How often a line of another page comes before one of the page, in a thousand.
const OTHER_PAGE: u64 = 500;

// How often a bit of a number's byte is turned, in a thousand.
const TURNED: Rates = Rates {
    numbers: 300,
    letters: 0,
};

// The mark of a free slot.
const FREE: u8 = 0;

// A store, and the chance by which it is filled and lines come.
#[derive(Drop)]
struct Recovery {
    store: Vec<u8>,
    random: Random,
}

// Sends one page of a seed whole: whether it stands whole, or there was no room for it.
pub fn run_recovery(heap: Global, seed: u64, tally: &mut Tally) -> Result<bool, AllocError>
    ensures { IfOk result (λ fine. fine ≡ true → (whole : Bool) × (tally.new ≡ with_recovery tally.old whole)) }
{
    let mut random = Random::new(seed);
    let slots = 1 + draw_index(&mut random, MOST_SLOTS);
    let store = vec![in heap; 0u8; SLOT_SIZE * slots]?;
    let mut recovery = Recovery { store, random };
    let stride = 1 + 2 * draw_byte(&mut recovery.random, MOST_PAGES);
    recovery.fill(stride);
    let page = draw_byte(&mut recovery.random, MOST_PAGES).wrapping_mul(stride);
    let was_there = recovery.has_page(page);
    let sent = Sent {
        page,
        version: draw_byte(&mut recovery.random, VERSIONS),
        row: 0,
    };
    if !recovery.send_page(sent) {
        return Ok(false);
    }
    let whole = recovery.is_whole(sent);
    tally.count_recovery(whole);
    Ok(whole || !was_there && !recovery.has_page(page) && recovery.is_full())
}

impl Recovery {
    // Fills the store as it may be lent: pages `stride` apart, so that none is there twice, in some of the slots, and letters or none everywhere.
    fn fill(&mut self, stride: u8) {
        let marked = self.random.below(MOST_TAKEN);
        let mut page: u8 = 0;
        for slot in self.store.as_mut_slice().chunks_exact_mut(SLOT_SIZE) {
            fill_slot(slot, page, marked, &mut self.random);
            page = page.wrapping_add(stride);
        }
    }

    // Whether a page stands in the store.
    fn has_page(&self, page: u8) -> bool {
        version(self.store.as_slice(), u64::from(page)).is_some()
    }

    // Sends each row of a page once, in any order, among lines of other pages: whether every line was made out.
    fn send_page(&mut self, sent: Sent) -> bool {
        for row in shuffled_rows(&mut self.random) {
            let other = Sent {
                page: draw_byte(&mut self.random, 256),
                version: draw_byte(&mut self.random, VERSIONS),
                row: draw_byte(&mut self.random, ROWS as u64),
            };
            if other.page != sent.page && self.random.chance(OTHER_PAGE) && !self.send(other) {
                return false;
            }
            if !self.send(Sent { row, ..sent }) {
                return false;
            }
        }
        true
    }

    // Sends a line with at most one bit of each number turned: whether it was made out.
    fn send(&mut self, sent: Sent) -> bool {
        let bits = turned_bits(&TURNED, &mut self.random).map(lowest_bit);
        let came = Came { sent, bits };
        matches!(
            take_line(&came.bytes(), self.store.as_mut_slice()),
            Done::Took | Done::Full
        )
    }

    // Whether a page stands whole in the store, in its version.
    fn is_whole(&self, sent: Sent) -> bool
        ensures { Decides result (StandsWhole self.now.store.items sent.page sent.version) }
    {
        let store = self.store.as_slice();
        if version(store, u64::from(sent.page)) != Some(sent.version) {
            return false;
        }
        for at in 0..ROWS as u8 {
            let shown = row(store, u64::from(sent.page), u64::from(at));
            if !whole_row(shown, Sent { row: at, ..sent }) {
                return false;
            }
        }
        true
    }

    // Whether no slot is free.
    fn is_full(&self) -> bool
        ensures { Decides result ((k : ℕ) → k < slots self.now.store.items → mark_at self.now.store.items k ≢ 0) }
    {
        self.store
            .as_slice()
            .chunks_exact(SLOT_SIZE)
            .all(|slot| !slot.starts_with(&[FREE]))
    }
}

// A slot with a page, taken or not, and letters or none.
fn fill_slot(slot: &mut [u8], page: u8, marked: u64, random: &mut Random) {
    let [mark, number, version, letters @ ..] = slot else {
        return;
    };
    *mark = if random.chance(marked) { TAKEN } else { FREE };
    *number = page;
    *version = draw_byte(random, VERSIONS);
    for letter in letters {
        *letter = any_letter(random);
    }
}

// A letter, or none.
#[tactic(auto, using(coding::proofs::Letters::letter_from), unfolding(store::specs::Layout::letter_fine))]
fn any_letter(random: &mut Random) -> u8
    ensures { letter_fine result ≡ true }
{
    let letter = FIRST_LETTER + draw_byte(random, LETTERS);
    if random.chance(UNKNOWN) {
        NO_LETTER
    } else {
        letter
    }
}

// The lowest bit of a byte that is set.
fn lowest_bit(byte: u8) -> u8 {
    byte & byte.wrapping_neg()
}

// The rows of a page in any order.
fn shuffled_rows(random: &mut Random) -> [u8; ROWS]
    ensures { (k : ℕ) → k < 25 → slice_index result k < 25 }
{
    let mut rows = array::from_fn(|k| k as u8);
    for k in 1..ROWS {
        rows.swap(k, draw_index(random, k + 1));
    }
    rows
}
