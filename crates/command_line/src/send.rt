// The command line: `send_pages [--rounds N]`.
ghost use Rattle.std.specs.Prelude.{◌≡◌, map, string_bytes};
ghost use Rattle.command_line.specs.Send.{asked, meant};

use crate::words::{HELP, first_number};

const ROUNDS: &str = "--rounds";

// What a command line asks for.
#[derive(Clone, Copy, Debug, PartialEq, Eq)]
pub enum Command {
    Help,
    // To send the pages so often.
    Send(u64),
}

// What the words of a command line, behind the program's name, ask for; none if they are wrong.
pub fn read_command(words: &[String]) -> Option<Command>
    ensures { asked (map string_bytes words.now) ≡ meant result }
{
    let mut rounds = None;
    let mut words = words.iter();
    while let Some(word) = words.next() {
        match word.as_str() {
            HELP => return Some(Command::Help),
            ROUNDS => {
                let number = words.next()?;
                rounds = Some(first_number(rounds, 0, u64::MAX, number.as_str())?);
            }
            _ => return None,
        }
    }
    Some(Command::Send(rounds.unwrap_or(1)))
}
