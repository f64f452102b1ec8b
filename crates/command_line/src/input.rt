// The lines of what a program reads, taken one after the other.
ghost use Rattle.std.specs.Prelude.{◌≡◌, ℕ, ◌<◌, List, length, IfOk, IfSome};
ghost use Rattle.command_line.specs.Input.{AreLinesOf, TookEach};
ghost use Rattle.command_line.specs.declared.input.InputError.TheVariants.{Io, Memory};

use std::alloc::{AllocError, Global};
use std::error::Error;
use std::io::BufRead;
use std::{fmt, io};

// Why an input isn't taken to its end. A call for each line answers with it, so it is small: an `anyhow::Error` there, with its room for two texts, would be
// laid out anew for each line, and took `damage_lines` four times as long for an empty one.
#[derive(Clone, Copy, Debug)]
pub enum InputError {
    // A read or a write failed.
    Io(io::Error),
    // There is no memory.
    Memory(AllocError),
}

impl fmt::Display for InputError {
    fn fmt<W: fmt::Write>(&self, f: &mut fmt::Formatter<W>) -> fmt::Result {
        match self {
            InputError::Io(e) => write!(f, "{e}"),
            InputError::Memory(e) => write!(f, "{e}"),
        }
    }
}

impl Error for InputError {}

// The two conversions are written by hand, since a clause of each names the variant that `?` makes.
impl From<io::Error> for InputError {
    ghost from_gives = { λ e r. r ≡ Io e };

    fn from(e: io::Error) -> InputError {
        InputError::Io(e)
    }
}

impl From<AllocError> for InputError {
    ghost from_gives = { λ none r. r ≡ Memory none };

    fn from(none: AllocError) -> InputError {
        InputError::Memory(none)
    }
}

// Calls for each line of an input, with the line's number and with the newline that it may end with; how many there were. Memory is kept from line to line.
pub fn each_line<R, E, F>(heap: Global, mut input: R, mut take: F) -> Result<u64, E>
where
    R: BufRead + Drop,
    E: From<io::Error>,
    F: FnMut(u64, &[u8]) -> Result<(), E>,
    requires { F.IsAlwaysCallable take }
    ensures { IfOk result (λ n. (lines : List (List ℕ)) × (last : F) × (length lines ≡ n) × TookEach F.FnMut take lines last
        × (n < u64.MAX → IfSome (R.remaining input) (λ text. AreLinesOf text lines))) }
{
    let mut line = Vec::new(heap);
    for number in 0..u64::MAX {
        line.clear();
        if input.read_until(b'\n', &mut line)? == 0 {
            return Ok(number);
        }
        take(number, line.as_slice())?;
    }
    Ok(u64::MAX)
}

#[cfg(test)]
mod tests {
    use super::*;
    use std::test::Fail;

    #[test]
    fn lines_with_their_numbers(rt: HostRuntime) -> Result<(), Fail> {
        let mut seen = Vec::new(rt.alloc());
        let input = b"one\nthree\n\nend".as_slice();
        let count = each_line(rt.alloc(), input, |number, line| -> io::Result<()> {
            seen.push((number, line.len()))?;
            Ok(())
        })?;
        assert_eq!(rt; count, 4);
        assert_eq!(rt;
            seen.as_slice(),
            [(0, 4), (1, 6), (2, 1), (3, 3)].as_slice()
        );
        Ok(())
    }

    #[test]
    fn what_an_error_says(rt: HostRuntime) -> Result<(), Fail> {
        let failed = InputError::from(io::Error::other("no such input"));
        let text = format!(in rt.alloc(); "{failed}")?;
        assert_eq!(rt; text.as_str(), "no such input");
        let none = InputError::from(AllocError);
        let text = format!(in rt.alloc(); "{none}")?;
        assert_eq!(rt; text.as_str(), "memory allocation failed");
        Ok(())
    }
}
