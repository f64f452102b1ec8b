// A trial: a random broadcast into a store beside the reference, compared after every line.
ghost use Rattle.std.specs.Prelude.{◌≡◌, ℕ, ◌<◌, ◌≤◌, true, Decides, IfOk, IfSome, slice_index};
ghost use Rattle.receiver.specs.Entry.{counted};
ghost use Rattle.trials.specs.AsTold.{AsTold, Keeps};
ghost use Rattle.trials.specs.Same.{Kept};
ghost use Rattle.trials.specs.Told.{TwoTurned};

use crate::broadcast::Broadcast;
use crate::came::Came;
use crate::compare::{keeps_bytes, same_pages};
use crate::reference::Reference;
use crate::sent::Sent;
use crate::shown::{shows_page, shows_pages};
use crate::tally::Tally;
use line::Line;
use receiver::{Counts, Done, Refusal, receive};
use std::alloc::{AllocError, Global};
use store::{MOST_SLOTS, SLOT_SIZE};

// How many lines are sent in a trial.
const SENT: u64 = 1500;

// All pages are shown after so many.
const ALL_AFTER: u64 = 500;

// How often a line comes with another length, in a thousand.
const OTHER_LENGTH: u64 = 20;

// Lines of another length are shorter than this.
const LONGEST: usize = 60;

// The store and the reference beside it.
#[derive(Drop)]
struct Receiving {
    store: Vec<u8>,
    counts: Counts,
    reference: Reference,
}

// Sends the broadcast of a seed. The line after which the store isn't as the reference has it, if there is one.
// The heap and the tally are two arguments: only this and `run_recovery` are given both, once each.
pub fn run_trial(heap: Global, seed: u64, tally: &mut Tally) -> Result<Option<u64>, AllocError>
    ensures { IfOk result (λ line. IfSome line (λ at. at ≤ 1500)) }
{
    let mut broadcast = Broadcast::new(heap, seed);
    let slots = broadcast.draw_slots();
    let mut receiving = Receiving::new(heap, slots)?;
    for at in 0..SENT {
        if at % ALL_AFTER == 0 && !receiving.is_same(tally) {
            return Ok(Some(at));
        }
        let Some(sent) = broadcast.next_line()? else {
            continue;
        };
        let bits = broadcast.draw_bits();
        let fine = if broadcast.draw_chance(OTHER_LENGTH) {
            let length = broadcast.draw_below(LONGEST as u64) as usize;
            receiving.refuses(sent, length, tally)?
        } else {
            receiving.takes(&Came { sent, bits }, tally)?
        };
        if !fine {
            return Ok(Some(at));
        }
    }
    if receiving.is_same(tally) {
        Ok(None)
    } else {
        Ok(Some(SENT))
    }
}

impl Receiving {
    // An empty store.
    fn new(heap: Global, slots: usize) -> Result<Receiving, AllocError> {
        let slots = slots.min(MOST_SLOTS);
        Ok(Receiving {
            store: vec![in heap; 0u8; SLOT_SIZE * slots]?,
            counts: Counts::default(),
            reference: Reference::new(heap, slots)?,
        })
    }

    // Takes a line that comes with bits turned: whether the answer is that of the reference, and all is as the reference has it.
    fn takes(&mut self, came: &Came, tally: &mut Tally) -> Result<bool, AllocError>
        ensures told { IfOk result (λ fine. fine ≡ true → AsTold self.new) }
        ensures kept { IfOk result (λ fine. fine ≡ true → Keeps self.old self.new (TwoTurned came.now.bits) came.now.sent.page) }
    {
        let due = self.reference.take(came);
        self.receives(&came.bytes(), due, came.sent.page, tally)
    }

    // Takes a line that comes with another length, if it is another: whether it is turned away and changes nothing.
    fn refuses(&mut self, sent: Sent, length: usize, tally: &mut Tally) -> Result<bool, AllocError>
        ensures told { IfOk result (λ fine. fine ≡ true → AsTold self.new) }
        ensures kept { IfOk result (λ fine. fine ≡ true → self.old.store.items ≡ self.new.store.items) }
    {
        if length == Line::LENGTH || length > LONGEST {
            return Ok(self.is_as_told());
        }
        let bytes = lengthened(&sent.line().encode());
        self.receives(
            &bytes[..length],
            Done::Refused(Refusal::Line),
            sent.page,
            tally,
        )
    }

    // Takes bytes that come for a page and that an answer is due for: whether they are answered so, leave what that leaves, and all is as the reference has it.
    fn receives(
        &mut self,
        bytes: &[u8],
        due: Done,
        page: u8,
        tally: &mut Tally,
    ) -> Result<bool, AllocError>
        ensures told { IfOk result (λ fine. fine ≡ true → AsTold self.new) }
        ensures kept { IfOk result (λ fine. fine ≡ true → Kept self.old.store.items self.new.store.items due page) }
        ensures counted { IfOk result (λ fine. fine ≡ true → self.new.counts ≡ counted self.old.counts due) }
        ensures reference { self.new.reference ≡ self.old.reference }
    {
        let before = self.store.clone()?;
        let done = receive(bytes, self.store.as_mut_slice(), &mut self.counts);
        tally.count_answer(due);
        Ok(
            is_answer(done, due)
                && keeps_bytes(before.as_slice(), self.store.as_slice(), due, page)
                && self.is_same_at(page, tally),
        )
    }

    // Whether the counts and all pages are as the reference has them.
    fn is_as_told(&self) -> bool
        ensures { result ≡ true → AsTold self.now }
    {
        self.counts == self.reference.counts && same_pages(self.store.as_slice(), &self.reference)
    }

    // Whether they are, and the calls show a page so.
    fn is_same_at(&self, page: u8, tally: &mut Tally) -> bool
        ensures { result ≡ true → AsTold self.now }
    {
        self.is_as_told() && shows_page(self.store.as_slice(), &self.reference, page, tally)
    }

    // Whether the calls show all pages as the reference has them.
    fn is_same(&self, tally: &mut Tally) -> bool {
        shows_pages(self.store.as_slice(), &self.reference, tally)
    }
}

// A line with more bytes behind it.
fn lengthened(line: &[u8; Line::LENGTH]) -> [u8; LONGEST]
    ensures { (k : ℕ) → k < 46 → slice_index result k ≡ slice_index line.now k }
{
    let mut bytes = [0; LONGEST];
    bytes[..Line::LENGTH].copy_from_slice(line);
    bytes
}

// Whether a line was answered as it was to be.
fn is_answer(done: Done, due: Done) -> bool
    ensures { Decides result (done ≡ due) }
{
    done == due
}
