// Letters from 32 to 127 as bytes with odd parity: one turned bit is detected.
ghost use Rattle.std.specs.Prelude.{◌≡◌, true, MatchOption};
ghost use Rattle.coding.specs.Parity.{is_letter, odd_parity, encode_letter, decode_letter};
ghost use Rattle.coding.specs.Laws.{ReadsWhole, DetectsOne};

// The first of the letters.
pub const FIRST_LETTER: u8 = 32;

// How many values seven bits have: the letters end below it.
pub const SEVEN_BITS: u8 = 128;

// Whether an odd number of a byte's bits are set.
#[tactic(auto, using(crate::proofs::Numbers::ones_byte), unfolding(crate::specs::Parity::odd_parity))]
fn is_odd(byte: u8) -> bool
    ensures { result ≡ odd_parity byte }
{
    byte.count_ones() % 2 == 1
}

// Whether a number is a letter.
#[tactic(auto, unfolding(crate::specs::Parity::is_letter))]
pub fn is_letter(number: u8) -> bool
    ensures { result ≡ is_letter number }
{
    (FIRST_LETTER..SEVEN_BITS).contains(&number)
}

// The byte that a letter is sent as; the lower seven bits of `letter` count.
#[tactic(auto, unfolding(crate::specs::Parity::encode_letter))]
pub fn encode_letter(letter: u8) -> u8
    ensures { result ≡ encode_letter letter }
{
    let seven = letter % SEVEN_BITS;
    if is_odd(seven) {
        seven
    } else {
        seven + SEVEN_BITS
    }
}

// The letter that a byte is read as, if it is one.
#[tactic(auto, using(crate::proofs::Letters::letter_laws))]
pub fn decode_letter(byte: u8) -> Option<u8>
    ensures value { MatchOption result (decode_letter byte ≡ 0) (λ c. (is_letter c ≡ true) × (c ≡ decode_letter byte)) }
    ensures whole { ReadsWhole byte result }
    ensures detects { DetectsOne byte result }
{
    let seven = byte % SEVEN_BITS;
    if is_odd(byte) && is_letter(seven) {
        Some(seven)
    } else {
        None
    }
}
