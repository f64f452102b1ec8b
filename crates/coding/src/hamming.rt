// Numbers from 0 to 15 as bytes of a Hamming 8/4 code: one turned bit is corrected, two are detected.
ghost use Rattle.std.specs.Prelude.{◌≡◌, ◌<◌, MatchOption};
ghost use Rattle.coding.specs.Hamming.{distance, encode_number, decode_number};
ghost use Rattle.coding.specs.Laws.{CorrectsOne, DetectsTwo};

use crate::tables::{CODE_WORDS, NUMBER_COUNT, NUMBERS};

// How many bits of two bytes differ.
#[tactic(auto, using(crate::proofs::Numbers::ones_distance))]
pub fn hamming_distance(a: u8, b: u8) -> u32
    ensures { result ≡ distance a b }
{
    (a ^ b).count_ones()
}

// The code word of a number, of which the lower four bits count.
#[tactic(auto, unfolding(crate::specs::Hamming::encode_number, crate::specs::Hamming::code_words))]
pub fn encode_number(number: u8) -> u8
    ensures { result ≡ encode_number number }
{
    CODE_WORDS[usize::from(number % NUMBER_COUNT)]
}

// The number whose code word a byte is, or differs from in one bit, if there is one.
pub fn decode_number(byte: u8) -> Option<u8>
    ensures value { MatchOption result (decode_number byte ≡ 16) (λ n. (n < 16) × (n ≡ decode_number byte)) }
    ensures corrects { CorrectsOne byte result }
    ensures detects { DetectsTwo byte result }
{
    let number = NUMBERS[usize::from(byte)];
    (number < NUMBER_COUNT).then_some(number)
}
