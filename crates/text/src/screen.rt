// What a row of the store looks like on the screen.
ghost use Rattle.std.specs.Prelude.{◌≡◌, ◌+◌, ◌*◌, ◌≤◌, true, ◌++◌, length, is_ok, if◌then◌else◌, string_bytes, string_len, string_capacity};
ghost use Rattle.text.specs.Screen.{sign_of, shown, SignsDiffer};

use crate::room;
use std::alloc::AllocError;

const FIRST_PRINTED: u8 = b' ';

const BLOCK_LETTER: u8 = 127;

const BLOCK: char = '■';

const UNKNOWN: char = '·';
// The most bytes that a sign has in UTF-8.
const WIDTH: usize = 3;

// The sign of a letter of the store: the letter itself, a block for the last letter, and a dot where no letter is known.
#[tactic(auto, using(crate::proofs::ScreenSigns::signs_differ, std::proofs::lemmas::Bool::Decides::nat_tests), unfolding(crate::specs::Screen::sign_of, coding::specs::Parity::is_letter))]
pub fn sign(letter: u8) -> char
    ensures value { result ≡ sign_of letter }
    ensures law { SignsDiffer }
{
    match letter {
        BLOCK_LETTER => BLOCK,
        FIRST_PRINTED..BLOCK_LETTER => char::from(letter),
        _ => UNKNOWN,
    }
}

// Appends the signs of a row, in order. Where there is no memory for it, the text stays as it was; none is asked for
// where there is room for three bytes a letter.
pub fn render_row(row: &[u8], out: &mut String) -> Result<(), AllocError>
    ensures written { string_bytes out.new ≡ (if is_ok result then string_bytes out.old ++ shown row.now else string_bytes out.old) }
    ensures room { string_len out.old + length row.now * 3 ≤ string_capacity out.old → is_ok result ≡ true }
{
    room::reserve(out, row.len(), WIDTH)?;
    for letter in row {
        room::push(out, sign(*letter));
    }
    Ok(())
}

#[cfg(test)]
mod tests {
    use super::*;
    use std::test::Fail;

    #[test]
    fn row_with_a_gap(rt: HostRuntime) -> Result<(), Fail> {
        let mut out = String::from_str(rt.alloc(), "|")?;
        render_row(&[72, 0, 105, 32, 127, 200], &mut out)?;
        assert_eq!(rt; out.as_str(), "|H·i ■·");
        Ok(())
    }
}
