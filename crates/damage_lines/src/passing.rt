// A row of the input on the air: a line in hex comes damaged or not at all, anything else as it is.
ghost use Rattle.std.specs.Prelude.{◌≡◌, ℕ, List, [], ◌++◌, IfOk, OnOk};
ghost use Rattle.channel.specs.Random.{seeded};
ghost use Rattle.damage_lines.specs.Passing.{line_in, Came, after_line, Written, after_row};

use channel::{Random, Rates, damage};
use command_line::damage::Settings;
use line::Line;
use std::alloc::{AllocError, Global};
use text::hex::{HexError, read_hex, write_hex};
use text::lines::trim_newline;

const NEWLINE: u8 = b'\n';

// The air: how much it damages, the numbers that it draws, and what came over it and is still to be written out.
#[derive(Drop)]
pub struct Air {
    settings: Settings,
    random: Random,
    pub out: Vec<u8>,
    // Room for the line in a row, and for it in hex.
    bytes: Vec<u8>,
    hex: String,
}

impl Air {
    // Air that nothing came over yet.
    pub fn new(heap: Global, settings: Settings) -> Air
        ensures settings { result.settings ≡ settings }
        ensures state { result.random.state ≡ seeded settings.seed }
        ensures empty { result.out.items ≡ [] }
    {
        Air {
            settings,
            random: Random::new(settings.seed),
            out: Vec::new(heap),
            bytes: Vec::new(heap),
            hex: String::new(heap),
        }
    }

    // Appends what comes of a row.
    pub fn pass_row(&mut self, row: &[u8]) -> Result<(), AllocError>
        ensures written { OnOk result ((text : List ℕ) × Written self.old.settings self.old.random.state row.now (line_in row.now) text × (self.new.out.items ≡ self.old.out.items ++ text)) }
        ensures state { OnOk result (self.new.random.state ≡ after_row self.old.settings (line_in row.now) self.old.random.state) }
        ensures same { self.new.settings ≡ self.old.settings }
    {
        let Some(line) = read_line(row, &mut self.bytes)? else {
            return self.out.extend_from_slice(row);
        };
        if let Some(came) = self.carry(&line) {
            self.hex.clear();
            write_hex(&came, &mut self.hex)?;
            self.out.extend_from_slice(self.hex.as_bytes())?;
            self.out.push(NEWLINE)?;
        }
        Ok(())
    }

    // What comes of a line: nothing if it is lost.
    fn carry(&mut self, line: &[u8; Line::LENGTH]) -> Option<[u8; Line::LENGTH]>
        ensures came { Came self.old.settings self.old.random.state line.now result }
        ensures state { self.new.random.state ≡ after_line self.old.settings self.old.random.state }
        ensures settings { self.new.settings ≡ self.old.settings }
        ensures out { self.new.out ≡ self.old.out }
    {
        if self.random.chance(self.settings.lose) {
            return None;
        }
        let rates = Rates {
            numbers: self.settings.numbers,
            letters: self.settings.letters,
        };
        Some(damage(line, &rates, &mut self.random))
    }
}

// The line that a row spells, if it is 46 bytes in hex; `bytes` is room for it.
fn read_line(row: &[u8], bytes: &mut Vec<u8>) -> Result<Option<[u8; Line::LENGTH]>, AllocError>
    ensures { IfOk result (λ o. o ≡ line_in row.now) }
{
    match read_hex(trim_newline(row), bytes) {
        Ok(()) => Ok(<[u8; Line::LENGTH]>::try_from(bytes.as_slice()).ok()),
        Err(HexError::NotHex) => Ok(None),
        Err(HexError::Memory(e)) => Err(e),
    }
}
