// What the input is taken into, and taking a line of it by itself: hex digits into bytes, and the bytes into the store, or why not.
ghost use Rattle.std.specs.Prelude.{◌≡◌, [], Some, OnOk, IfErr};
ghost use Rattle.text.specs.Hex.{line_bytes};
ghost use Rattle.receive_pages.specs.Intake.{Unread, Received, Taken, Says, said};
ghost use Rattle.receive_pages.specs.declared.intake.TakeError.TheVariants.{TurnedAway, Memory};

use crate::refusal::{Reason, Refusal};
use receiver::{Counts, Done, receive, refusal_place};
use std::alloc::{AllocError, Global};
use text::hex::{HexError, read_hex};

// The store that the input is taken into, and what of it was counted.
#[derive(Drop)]
pub struct Intake {
    pub store: Vec<u8>,
    pub counts: Counts,
    // Room for what a line spells.
    pub(crate) bytes: Vec<u8>,
    // Lines that wait to be taken, laid end to end.
    pub(crate) waiting: Vec<u8>,
}

// Why a line isn't taken.
#[derive(Clone, Copy, Debug, PartialEq, Eq)]
pub enum TakeError {
    TurnedAway(Refusal),
    Memory(AllocError),
}

impl From<AllocError> for TakeError {
    ghost from_gives = { λ none r. r ≡ Memory none };

    fn from(none: AllocError) -> TakeError {
        TakeError::Memory(none)
    }
}

impl From<Refusal> for TakeError {
    ghost from_gives = { λ refusal r. r ≡ TurnedAway refusal };

    fn from(refusal: Refusal) -> TakeError {
        TakeError::TurnedAway(refusal)
    }
}

impl Intake {
    // An intake of which nothing was counted, and no line waits.
    pub(crate) fn new(heap: Global, store: Vec<u8>) -> Intake
        ensures store { result.store ≡ store }
        ensures counts { result.counts ≡ record { lost = 0; full = 0 } }
        ensures waiting { result.waiting.items ≡ [] }
    {
        Intake {
            store,
            counts: Counts::default(),
            bytes: Vec::new(heap),
            waiting: Vec::new(heap),
        }
    }

    // Takes the line with this number into the store. A line that spells no byte is passed over.
    pub fn take_text(&mut self, text: &[u8], number: u64) -> Result<(), TakeError>
        ensures taken { Says result (λ said. Taken number (line_bytes text.now) self.old.store.items self.old.counts said self.new.store.items self.new.counts) ((self.new.store.items ≡ self.old.store.items) × (self.new.counts ≡ self.old.counts)) }
        ensures waiting { self.new.waiting ≡ self.old.waiting }
    {
        read_line(text, number, &mut self.bytes)?;
        if self.bytes.is_empty() {
            return Ok(());
        }
        take_bytes(
            self.bytes.as_slice(),
            self.store.as_mut_slice(),
            &mut self.counts,
        )?;
        Ok(())
    }
}

// The bytes that the line with this number spells, into `bytes`.
pub(crate) fn read_line(text: &[u8], number: u64, bytes: &mut Vec<u8>) -> Result<(), TakeError>
    ensures spelt { OnOk result (line_bytes text.now ≡ Some bytes.new.items) }
    ensures unread { IfErr result (λ e. Unread number (line_bytes text.now) e) }
{
    read_hex(text, bytes).map_err(|e| match e {
        HexError::NotHex => TakeError::TurnedAway(Refusal {
            reason: Reason::Text,
            place: number,
        }),
        HexError::Memory(none) => TakeError::Memory(none),
    })
}

// Takes a line's bytes into the store.
fn take_bytes(line: &[u8], store: &mut [u8], counts: &mut Counts) -> Result<(), Refusal>
    ensures { Received line.now store.old counts.old (said result) store.new counts.new }
{
    let Done::Refused(refusal) = receive(line, store, counts) else {
        return Ok(());
    };
    let reason = Reason::Receiver(refusal);
    let place = refusal_place(line, store).unwrap();
    Err(Refusal { reason, place })
}
