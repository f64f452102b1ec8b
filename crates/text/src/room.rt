// Room in a text, asked for once: what is appended then needs no more memory, so that a text grows as a whole or not at all.
ghost use Rattle.std.specs.Prelude.{◌≡◌, ◌+◌, ◌*◌, ◌<◌, ◌≤◌, ◌++◌, length, string_bytes, string_len, string_capacity, MatchResult};
ghost use Rattle.std.proofs.Math.Utf8.{encode};

use std::alloc::AllocError;

// Asks for room for `count` characters of at most `width` bytes each. The text stays as it is.
pub(crate) fn reserve(text: &mut String, count: usize, width: usize) -> Result<(), AllocError>
    ensures bytes { string_bytes text.new ≡ string_bytes text.old }
    ensures len { string_len text.new ≡ string_len text.old }
    ensures cases { MatchResult result (λ _. string_len text.new + count * width ≤ string_capacity text.new) (λ _. string_capacity text.old < string_len text.old + count * width) }
{
    text.reserve(count.checked_mul(width).ok_or(AllocError)?)
}

// Appends a character for which there is room.
pub(crate) fn push(text: &mut String, sign: char)
    requires { string_len text.old + length (encode sign) ≤ string_capacity text.old }
    ensures bytes { string_bytes text.new ≡ string_bytes text.old ++ encode sign }
    ensures len { string_len text.new ≡ string_len text.old + length (encode sign) }
    ensures capacity { string_capacity text.old ≤ string_capacity text.new }
{
    // There is room, so this does not fail.
    text.push(sign).unwrap();
}
