// Lines with bits turned at random, never more than their limits allow.
ghost use Rattle.std.specs.Prelude.{◌≡◌, ℕ, ◌%◌, ◌^◌, ◌<◌, ◌≤◌, slice_index};
ghost use Rattle.coding.specs.Hamming.{distance};
ghost use Rattle.line.specs.Damage.{row_line, WithinLimits};
ghost use Rattle.channel.specs.Random.{later};
ghost use Rattle.channel.specs.Air.{letter_bits, number_bits, Drawn, LineBy, Turned, Damaged};

use crate::random::Random;
use line::Line;
use std::array;

// How often bytes are damaged, in a thousand: those of numbers, and those of letters.
#[derive(Clone, Copy)]
pub struct Rates {
    pub numbers: u64,
    pub letters: u64,
}

// How often a number's byte that is damaged has two bits turned and not one, in a thousand.
const BOTH: u64 = 500;

const BITS: u64 = 8;

const OTHER_BITS: u64 = 7;

const NO_BITS: u8 = 0;

// The byte with one bit set, at a place that is counted round the byte.
fn one_bit(place: u64) -> u8
    ensures { result ≡ 2 ^ (place % 8) }
{
    1 << (place % BITS)
}

// The bits to turn in a letter's byte: none, or one.
#[tactic(auto, unfolding(crate::specs::Air::letter_bits))]
fn letter_bits(rate: u64, random: &mut Random) -> u8
    ensures bits { result ≡ letter_bits rate random.old.state }
    ensures state { random.new.state ≡ later 2 random.old.state }
{
    let damaged = random.chance(rate);
    let place = random.below(BITS);
    if damaged { one_bit(place) } else { NO_BITS }
}

// The bits to turn in a number's byte: none, one or two.
#[tactic(auto, unfolding(crate::specs::Air::number_bits))]
fn number_bits(rate: u64, random: &mut Random) -> u8
    ensures bits { result ≡ number_bits rate random.old.state }
    ensures state { random.new.state ≡ later 4 random.old.state }
{
    let damaged = random.chance(rate);
    let place = random.below(BITS);
    let both = random.chance(BOTH);
    let further = random.below(OTHER_BITS);
    if !damaged {
        NO_BITS
    } else if both {
        one_bit(place) | one_bit(place + 1 + further)
    } else {
        one_bit(place)
    }
}

// The bits to turn in each byte of a line, set in a byte, drawn at random: at most two of a number's, and at most one of a letter's.
pub fn turned_bits(rates: &Rates, random: &mut Random) -> [u8; Line::LENGTH]
    ensures bits { Drawn rates.now.numbers rates.now.letters random.old.state result }
    ensures state { random.new.state ≡ later 104 random.old.state }
    ensures law { LineBy row_line rates.now.numbers rates.now.letters result }
{
    let mut bits = [NO_BITS; Line::LENGTH];
    let (numbers, letters) = bits.split_at_mut(Line::NUMBERS);
    for number in numbers.iter_mut() {
        *number = number_bits(rates.numbers, random);
    }
    for letter in letters.iter_mut() {
        *letter = letter_bits(rates.letters, random);
    }
    bits
}

// A line with bits turned.
pub fn turn_bits(line: &[u8; Line::LENGTH], bits: &[u8; Line::LENGTH]) -> [u8; Line::LENGTH]
    ensures { Turned line.now bits.now result }
{
    array::from_fn(|k| line[k] ^ bits[k])
}

// A copy of a line as it may come: damaged at random, within the limits of a line. At rates of 0 it is the line itself; at rates of a thousand each byte is damaged.
pub fn damage(line: &[u8; Line::LENGTH], rates: &Rates, random: &mut Random) -> [u8; Line::LENGTH]
    ensures bits { Damaged rates.now.numbers rates.now.letters random.old.state line.now result }
    ensures state { random.new.state ≡ later 104 random.old.state }
    ensures limits { WithinLimits row_line line.now result }
    ensures undamaged { rates.now.numbers ≡ 0 → rates.now.letters ≡ 0 → result ≡ line.now }
    ensures numbers { 1000 ≤ rates.now.numbers → (k : ℕ) → k < 6 → 1 ≤ distance (slice_index line.now k) (slice_index result k) }
    ensures letters { 1000 ≤ rates.now.letters → (k : ℕ) → 6 ≤ k → k < 46 → distance (slice_index line.now k) (slice_index result k) ≡ 1 }
{
    let bits = turned_bits(rates, random);
    turn_bits(line, &bits)
}
