// A random broadcast: lines of a few pages in any order, lost, late and twice, whose versions change from time to time.
ghost use Rattle.std.specs.Prelude.{◌≡◌, ◌<◌, ◌≤◌, [], All, IfOk, IfSome, replicate};
ghost use Rattle.trials.specs.declared.sent.Sent.{Sent};
ghost use Rattle.line.specs.Damage.{row_line};
ghost use Rattle.channel.specs.Random.{drawn_below, comes_about};
ghost use Rattle.channel.specs.Air.{LineBy};

use crate::draw::{draw_byte, draw_index};
use crate::reference::PAGES;
use crate::sent::Sent;
use channel::{Random, Rates, turned_bits};
use line::{Line, ROWS};
use std::alloc::{AllocError, Global};
use store::MOST_SLOTS;

// How many lines are kept for later at most.
const MOST_LATE: usize = 32;

// How many pages there are at most.
const MOST_PAGES: u64 = 80;

// How many odd numbers are drawn from for the distance of page numbers.
const STRIDES: u64 = 100;

// How many of a thousand lines are lost, and how many of a thousand bytes of numbers and of letters are damaged, at most.
const MOST_LOST: u64 = 300;

const MOST_NUMBERS: u64 = 150;

const MOST_LETTERS: u64 = 500;

// By how much a version may go on at most.
const VERSION_STEPS: u64 = 3;

// How often things happen, in a thousand.
const NEW_VERSION: u64 = 5;

const IS_LATE: u64 = 200;

const IS_TWICE: u64 = 100;

const COMES_LATER: u64 = 250;

// The lines of up to `pages` pages, whose numbers are `stride` apart from each other.
#[derive(Drop)]
pub struct Broadcast {
    random: Random,
    rates: Rates,
    pages: u8,
    stride: u8,
    lost: u64,
    versions: [u8; PAGES],
    late: Vec<Sent>,
    ghost rows: { All (λ (sent : Sent). sent.row < 25) late.items },
}

impl Broadcast {
    // The broadcast of a seed: at least one page, at most so many, each in its first version, and no line kept for later.
    pub fn new(heap: Global, seed: u64) -> Broadcast
        ensures some { 1 ≤ result.pages }
        ensures few { result.pages ≤ 80 }
        ensures first { result.versions ≡ replicate 256 0 }
        ensures late { result.late.items ≡ [] }
    {
        let mut random = Random::new(seed);
        let pages = 1 + draw_byte(&mut random, MOST_PAGES);
        let stride = 1 + 2 * draw_byte(&mut random, STRIDES);
        let lost = random.below(MOST_LOST);
        let numbers = random.below(MOST_NUMBERS);
        let letters = random.below(MOST_LETTERS);
        Broadcast {
            random,
            rates: Rates { numbers, letters },
            pages,
            stride,
            lost,
            versions: [0; PAGES],
            late: Vec::new(heap),
        }
    }

    // How many slots the store is to have.
    pub fn draw_slots(&mut self) -> usize
        ensures some { 1 ≤ result }
        ensures few { result ≤ 60 }
    {
        1 + draw_index(&mut self.random, MOST_SLOTS)
    }

    // The bits that are turned in a line.
    pub fn draw_bits(&mut self) -> [u8; Line::LENGTH]
        ensures { LineBy row_line self.old.rates.numbers self.old.rates.letters result }
    {
        turned_bits(&self.rates, &mut self.random)
    }

    pub fn draw_chance(&mut self, per_mille: u64) -> bool
        ensures { result ≡ comes_about per_mille self.old.random.state }
    {
        self.random.chance(per_mille)
    }

    pub fn draw_below(&mut self, limit: u64) -> u64
        ensures { result ≡ drawn_below limit self.old.random.state }
    {
        self.random.below(limit)
    }

    // The line that comes next; none where one is lost on the way or comes late. One that comes late or twice is kept for later, if there is room.
    pub fn next_line(&mut self) -> Result<Option<Sent>, AllocError>
        ensures { IfOk result (λ line. IfSome line (λ sent. sent.row < 25)) }
    {
        if self.random.chance(COMES_LATER) {
            return Ok(self.take_late());
        }
        let sent = self.new_line();
        if self.random.chance(self.lost) {
            return Ok(None);
        }
        let late = self.random.chance(IS_LATE);
        if (late || self.random.chance(IS_TWICE)) && self.late.len() < MOST_LATE {
            self.late.push(sent)?;
        }
        Ok(if late { None } else { Some(sent) })
    }

    // A line as it is sent: any row of any of the pages, of which one may have got a new version.
    fn new_line(&mut self) -> Sent
        ensures { result.row < 25 }
    {
        let page = draw_byte(&mut self.random, u64::from(self.pages)).wrapping_mul(self.stride);
        let at = usize::from(page);
        if self.random.chance(NEW_VERSION) {
            let steps = 1 + draw_byte(&mut self.random, VERSION_STEPS);
            self.versions[at] = self.versions[at].wrapping_add(steps);
        }
        Sent {
            page,
            version: self.versions[at],
            row: draw_byte(&mut self.random, ROWS as u64),
        }
    }

    // One of the lines that were kept, if there is one.
    fn take_late(&mut self) -> Option<Sent>
        ensures { IfSome result (λ sent. sent.row < 25) }
    {
        if self.late.is_empty() {
            return None;
        }
        let at = draw_index(&mut self.random, self.late.len());
        Some(self.late.remove(at))
    }
}
