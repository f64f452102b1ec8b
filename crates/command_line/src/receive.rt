// The command line: `receive_pages [--slots N] [--store FILE] [--follow PAGE] [PAGE ..]`.
ghost use Rattle.std.specs.Prelude.{◌≡◌, map, Some, string_bytes, MatchResult};
ghost use Rattle.command_line.specs.declared.receive.OptionsError.TheVariants.{Memory};
ghost use Rattle.command_line.specs.Receive.{asked, meant, Says, given, nothing, named, with_value, with_page, Denies};
ghost use Rattle.command_line.specs.Words.{first_number};

use crate::words::{HELP, first_number};
use std::alloc::{AllocError, AllocFailed, Global};
use store::MOST_SLOTS;

const SLOTS: &str = "--slots";

const STORE: &str = "--store";

const FOLLOW: &str = "--follow";

const LAST_PAGE: u8 = u8::MAX;

// What to receive into, and what to print.
#[derive(Drop, Debug, PartialEq, Eq)]
pub struct Options {
    // The slots of the store, if they are given.
    pub slots: Option<u8>,
    // The file in which the store is kept.
    pub store: Option<String>,
    // The page that is shown as lines come in.
    pub follow: Option<u8>,
    // The pages that are asked for, in their order.
    pub pages: Vec<u8>,
}

// What a command line asks for.
#[derive(Drop, Debug, PartialEq, Eq)]
pub enum Command {
    Help,
    Receive(Options),
}

// An option that has a value, the word behind it.
#[derive(Clone, Copy, Debug, PartialEq, Eq)]
pub enum Valued {
    Slots,
    Store,
    Follow,
}

// Why a command line isn't followed.
#[derive(Clone, Copy, Debug, PartialEq, Eq)]
pub enum OptionsError {
    // Its words are wrong.
    Wrong,
    Memory,
}

impl From<AllocError> for OptionsError {
    ghost from_gives = { λ _ r. r ≡ Memory };

    fn from(_e: AllocError) -> OptionsError {
        OptionsError::Memory
    }
}

impl<T: Drop> From<AllocFailed<T>> for OptionsError {
    ghost from_gives = { λ _ r. r ≡ Memory };

    fn from(_e: AllocFailed<T>) -> OptionsError {
        OptionsError::Memory
    }
}

// What the words of a command line, behind the program's name, ask for.
pub fn read_command(heap: Global, words: &[String]) -> Result<Command, OptionsError>
    ensures { MatchResult result (λ command. asked (map string_bytes words.now) ≡ meant command) (λ e. Says e (asked (map string_bytes words.now))) }
{
    let mut options = Options::new(heap);
    let mut words = words.iter();
    while let Some(word) = words.next() {
        let word = word.as_str();
        if word == HELP {
            return Ok(Command::Help);
        }
        options = match valued_option(word) {
            Some(option) => {
                let value = words.next().ok_or(OptionsError::Wrong)?;
                options.with_value(heap, option, value.as_str())?
            }
            None => options.with_page(word)?,
        };
    }
    Ok(Command::Receive(options))
}

// The option that a word names, if the option has a value.
fn valued_option(word: &str) -> Option<Valued>
    ensures { result ≡ named word.now }
{
    match word {
        SLOTS => Some(Valued::Slots),
        STORE => Some(Valued::Store),
        FOLLOW => Some(Valued::Follow),
        _ => None,
    }
}

impl Options {
    // The options of a command line with no word.
    fn new(heap: Global) -> Options
        ensures { given result ≡ nothing }
    {
        Options {
            slots: None,
            store: None,
            follow: None,
            pages: Vec::new(heap),
        }
    }

    // The options with the value of one more, which wasn't given before.
    fn with_value(
        mut self,
        heap: Global,
        option: Valued,
        value: &str,
    ) -> Result<Options, OptionsError>
        ensures { MatchResult result (λ options. with_value option value.now (given self) ≡ Some (given options)) (λ e. Denies e (with_value option value.now (given self))) }
    {
        match option {
            Valued::Slots => {
                let slots = first_byte(self.slots, 1, MOST_SLOTS as u8, value);
                self.slots = Some(slots.ok_or(OptionsError::Wrong)?);
            }
            Valued::Store => {
                if self.store.is_some() || value.is_empty() {
                    return Err(OptionsError::Wrong);
                }
                self.store = Some(String::from_str(heap, value)?);
            }
            Valued::Follow => {
                let page = first_byte(self.follow, 0, LAST_PAGE, value);
                self.follow = Some(page.ok_or(OptionsError::Wrong)?);
            }
        }
        Ok(self)
    }

    // The options with one more page to print.
    fn with_page(mut self, word: &str) -> Result<Options, OptionsError>
        ensures { MatchResult result (λ options. with_page word.now (given self) ≡ Some (given options)) (λ e. Denies e (with_page word.now (given self))) }
    {
        let page = first_byte(None, 0, LAST_PAGE, word);
        self.pages.push(page.ok_or(OptionsError::Wrong)?)?;
        Ok(self)
    }
}

// The number of 8 bits that a word gives, between two others, where none was given before.
fn first_byte(before: Option<u8>, least: u8, greatest: u8, word: &str) -> Option<u8>
    ensures { result ≡ first_number before least greatest word.now }
{
    let number = first_number(before, u64::from(least), u64::from(greatest), word)?;
    u8::try_from(number).ok()
}
