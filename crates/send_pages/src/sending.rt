// The lines that go, one after the other, in hex.
ghost use Rattle.std.specs.Prelude.{◌≡◌, ◌*◌, ◌++◌, [], length, string_bytes, OnOk};
ghost use Rattle.line.specs.Size.{rows};
ghost use Rattle.sender.specs.Schedule.{turn, after, after_turns};
ghost use Rattle.send_pages.specs.Sending.{turn_text, turns_text};

use broadcast::next_line;
use line::ROWS;
use page_text::Page;
use sender::Schedule;
use std::alloc::{AllocError, Global};
use text::hex::write_hex;

// Pages that are sent round and round: where their schedule stands, and the lines that are still to be written out.
#[derive(Drop)]
pub struct Sending<'a> {
    pages: &'a [Page],
    schedule: Schedule,
    pub lines: String,
}

impl<'a> Sending<'a> {
    // At the start of a round.
    pub fn new(heap: Global, pages: &'a [Page]) -> Sending<'a>
        ensures pages { result.pages.now ≡ pages.now }
        ensures start { result.schedule ≡ record { page = 0; row = 0 } }
        ensures empty { string_bytes result.lines ≡ [] }
    {
        Sending {
            pages,
            schedule: Schedule { page: 0, row: 0 },
            lines: String::new(heap),
        }
    }

    // Appends the lines of one round over the pages, in the schedule's order.
    pub fn write_round(&mut self) -> Result<(), AllocError>
        ensures written { OnOk result (string_bytes self.new.lines ≡ string_bytes self.old.lines ++ turns_text self.old.pages.now self.old.schedule (rows * length self.old.pages.now)) }
        ensures moved { OnOk result (self.new.schedule ≡ after_turns (length self.old.pages.now) (rows * length self.old.pages.now) self.old.schedule) }
        ensures same { self.new.pages.now ≡ self.old.pages.now }
    {
        for _row in 0..ROWS {
            self.write_row()?;
        }
        Ok(())
    }

    // Appends as many lines as there are pages: a row of each.
    fn write_row(&mut self) -> Result<(), AllocError>
        ensures written { OnOk result (string_bytes self.new.lines ≡ string_bytes self.old.lines ++ turns_text self.old.pages.now self.old.schedule (length self.old.pages.now)) }
        ensures moved { OnOk result (self.new.schedule ≡ after_turns (length self.old.pages.now) (length self.old.pages.now) self.old.schedule) }
        ensures same { self.new.pages.now ≡ self.old.pages.now }
    {
        for _page in 0..self.pages.len() {
            self.write_turn()?;
        }
        Ok(())
    }

    // Appends the line that goes now, in hex and with a newline.
    fn write_turn(&mut self) -> Result<(), AllocError>
        ensures written { OnOk result (string_bytes self.new.lines ≡ string_bytes self.old.lines ++ turn_text self.old.pages.now (turn (length self.old.pages.now) self.old.schedule)) }
        ensures moved { self.new.schedule ≡ after (length self.old.pages.now) self.old.schedule }
        ensures same { self.new.pages.now ≡ self.old.pages.now }
    {
        if let Some(line) = next_line(self.pages, &mut self.schedule) {
            write_hex(&line, &mut self.lines)?;
            self.lines.push('\n')?;
        }
        Ok(())
    }
}
