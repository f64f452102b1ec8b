// The entries: a line that comes is turned away, lost, finds no room, or is taken.
ghost use Rattle.std.specs.Prelude.{◌≡◌, MatchOption};
ghost use Rattle.receiver.specs.Entry.{refusal, Answers, RefusedAt, counted};
ghost use Rattle.receiver.specs.Promises.{Continues, TwoTurnedLost};

use crate::checked::Checked;
use crate::refusal::{Refusal, accept, place};
use line::Line;

// What taking a line answers: one enum, since whoever sent the line is told that it is lost or finds no room as much as that it is turned away.
#[derive(Clone, Copy, Debug, PartialEq, Eq)]
pub enum Done {
    // What the line says was applied to the store's pages.
    Took,
    // The line can't be made out: a byte is no number, or there is no such row.
    Lost,
    // There is no room for the line's page.
    Full,
    // The line was turned away.
    Refused(Refusal),
}

// How many lines were lost, and for how many there was no room. A count stops at its largest.
#[derive(Clone, Copy, Debug, Default, PartialEq, Eq)]
pub struct Counts {
    pub lost: u64,
    pub full: u64,
}

impl Counts {
    // Counts one more answer.
    pub(crate) fn count(&mut self, done: Done)
        ensures { self.new ≡ counted self.old done }
    {
        match done {
            Done::Lost => self.lost = self.lost.saturating_add(1),
            Done::Full => self.full = self.full.saturating_add(1),
            Done::Took | Done::Refused(_) => {}
        }
    }
}

// Takes a line into a lent store.
pub fn take_line(line: &[u8], store: &mut [u8]) -> Done
    ensures { Answers line.now store.old result store.new }
{
    match accept(line.len() == Line::LENGTH, store) {
        Ok(directory) => {
            let mut checked = Checked { store, directory };
            checked.take_each(line, &mut Counts::default())
        }
        Err(refusal) => Done::Refused(refusal),
    }
}

// The place of a refusal: the line's length, or the first slot of the store that isn't as it should be; none if the line isn't turned away.
pub fn refusal_place(line: &[u8], store: &[u8]) -> Option<u64>
    ensures { MatchOption result (refusal line.now store.now ≡ 0) (λ p. RefusedAt line.now store.now p) }
{
    place(line.len() == Line::LENGTH, line.len(), store)
}

// Takes a line into a lent store, and counts it. Whatever run of calls led to the store, it keeps the promises with this line after it.
pub fn receive(line: &[u8], store: &mut [u8], counts: &mut Counts) -> Done
    ensures answer { Answers line.now store.old result store.new }
    ensures counted { counts.new ≡ counted counts.old result }
    ensures promises { Continues line.now store.old result store.new }
    ensures two_turned { TwoTurnedLost line.now store.old counts.old result store.new counts.new }
{
    let done = take_line(line, store);
    counts.count(done);
    done
}
