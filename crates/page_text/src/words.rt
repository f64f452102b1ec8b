// The words of a line: numbers and words at the front of some bytes.
ghost use Rattle.std.specs.Prelude.{◌≡◌, ◌≤◌, length, Some, None, MatchOption};
ghost use Rattle.std.specs.Char.{is_ascii_digit};
ghost use Rattle.std.specs.List.{prefix_len};
ghost use Rattle.page_text.specs.Reading.{after, read_number};

// How many digits stand at the front.
fn digit_count(bytes: &[u8]) -> usize
    ensures value { result ≡ prefix_len is_ascii_digit bytes.now }
    ensures within { result ≤ length bytes.now }
{
    bytes.iter().take_while(|b| b.is_ascii_digit()).count()
}

// A number at the front of some bytes, and what comes after it.
#[derive(Clone, Copy)]
pub(super) struct Number<'a> {
    pub(super) value: u8,
    pub(super) rest: &'a [u8],
}

// The number at the front, of at most `places` digits and at most `greatest`.
#[tactic(auto, unfolding(crate::specs::Reading::read_number))]
pub(super) fn read_number<'a>(bytes: &'a [u8], places: usize, greatest: u8) -> Option<Number<'a>>
    ensures { MatchOption result (read_number places greatest bytes.now ≡ None) (λ n. read_number places greatest bytes.now ≡ Some (n.value, n.rest.now)) }
{
    let (digits, rest) = bytes.split_at(digit_count(bytes));
    if digits.len() > places {
        return None;
    }
    // with no digit there is nothing to parse
    let value = str::from_utf8(digits).ok()?.parse::<u8>().ok()?;
    if value > greatest {
        return None;
    }
    Some(Number { value, rest })
}

// The bytes after a word that they begin with.
pub(super) fn after_word<'a>(bytes: &'a [u8], word: &[u8]) -> Option<&'a [u8]>
    ensures { MatchOption result (after word.now bytes.now ≡ None) (λ x. after word.now bytes.now ≡ Some x.now) }
{
    bytes.strip_prefix(word)
}
