// The command line: `damage_lines [--seed N] [--lose N] [--numbers N] [--letters N]`.
ghost use Rattle.std.specs.Prelude.{◌≡◌, map, string_bytes};
ghost use Rattle.command_line.specs.Damage.{defaults, with_setting, asked};

use crate::words::HELP;
use text::number::read_number;

const SEED: &str = "--seed";

const LOSE: &str = "--lose";

const NUMBERS: &str = "--numbers";

const LETTERS: &str = "--letters";

// The seed, and how many of a thousand lines are lost, and of a thousand bytes of numbers and of letters damaged.
#[derive(Clone, Copy, Debug, PartialEq, Eq)]
pub struct Settings {
    pub seed: u64,
    pub lose: u64,
    pub numbers: u64,
    pub letters: u64,
}

// What a command line asks for.
#[derive(Clone, Copy, Debug, PartialEq, Eq)]
pub enum Command {
    Help,
    Damage(Settings),
}

// What holds where nothing is given.
impl Default for Settings {
    ghost is_default = { λ settings. settings ≡ defaults };

    fn default() -> Settings {
        Settings {
            seed: 1,
            lose: 50,
            numbers: 20,
            letters: 50,
        }
    }
}

impl Settings {
    // The settings with one given by its word; none if there is no such word.
    #[tactic(auto, unfolding(crate::specs::Damage::with_setting))]
    fn with(mut self, word: &str, number: u64) -> Option<Settings>
        ensures { result ≡ with_setting self word.now number }
    {
        match word {
            SEED => self.seed = number,
            LOSE => self.lose = number,
            NUMBERS => self.numbers = number,
            LETTERS => self.letters = number,
            _ => return None,
        }
        Some(self)
    }
}

// What the words of a command line, behind the program's name, ask for; none if they are wrong.
pub fn read_command(words: &[String]) -> Option<Command>
    ensures { result ≡ asked defaults (map string_bytes words.now) }
{
    let mut settings = Settings::default();
    let mut words = words.iter();
    while let Some(word) = words.next() {
        let word = word.as_str();
        if word == HELP {
            return Some(Command::Help);
        }
        let number = read_number(words.next()?.as_str(), 0, u64::MAX)?;
        settings = settings.with(word, number)?;
    }
    Some(Command::Damage(settings))
}
