// Taking many lines of the input at once: hex digits into bytes, lines gathered until there are many, and those taken into the store.
ghost use Rattle.std.specs.Prelude.{◌≡◌, [], MatchResult};
ghost use Rattle.text.specs.Hex.{line_bytes};
ghost use Rattle.receiver.specs.Batch.{TookLines};
ghost use Rattle.receive_pages.specs.Intake.{Says};
ghost use Rattle.receive_pages.specs.Gathering.{said_of, waiting_with, TurnedAway};

use crate::intake::{Intake, TakeError, read_line};
use crate::refusal::{Reason, Refusal};
use line::Line;
use receiver::{Counts, lines_refusal_place, take_lines};

impl Intake {
    // Lays the line with this number behind those that wait, or says why it is turned away. A line that spells no byte is passed over.
    pub(crate) fn gather(&mut self, text: &[u8], number: u64) -> Result<(), TakeError>
        ensures waits { Says result (λ said. (said ≡ said_of number (line_bytes text.now)) × (self.new.waiting.items ≡ waiting_with (line_bytes text.now) self.old.waiting.items)) (self.new.waiting.items ≡ self.old.waiting.items) }
        ensures same { (self.new.store ≡ self.old.store) × (self.new.counts ≡ self.old.counts) }
    {
        read_line(text, number, &mut self.bytes)?;
        let length = self.bytes.len();
        if length == Line::LENGTH {
            let line = self.bytes.as_slice();
            self.waiting.extend_from_slice(line)?;
            return Ok(());
        }
        if length == 0 {
            return Ok(());
        }
        Err(TakeError::TurnedAway(Refusal {
            reason: Reason::Receiver(receiver::Refusal::Line),
            place: length as u64,
        }))
    }

    // Takes the lines that wait into the store, all at once; none waits then. Why they are turned away, if they are.
    pub(crate) fn take_waiting(&mut self) -> Result<(), Refusal>
        ensures taken { MatchResult result (λ _. TookLines self.old.waiting.items self.old.store.items self.old.counts self.new.store.items self.new.counts) (λ refusal. TurnedAway refusal self.old.waiting.items self.old.store.items self.old.counts self.new.store.items self.new.counts) }
        ensures emptied { self.new.waiting.items ≡ [] }
    {
        let taken = take_all(
            self.waiting.as_slice(),
            self.store.as_mut_slice(),
            &mut self.counts,
        );
        self.waiting.clear();
        taken
    }
}

fn take_all(lines: &[u8], store: &mut [u8], counts: &mut Counts) -> Result<(), Refusal>
    ensures { MatchResult result (λ _. TookLines lines.now store.old counts.old store.new counts.new) (λ refusal. TurnedAway refusal lines.now store.old counts.old store.new counts.new) }
{
    let Err(refusal) = take_lines(lines, store, counts) else {
        return Ok(());
    };
    let reason = Reason::Receiver(refusal);
    let place = lines_refusal_place(lines, store).unwrap();
    Err(Refusal { reason, place })
}
