// Why something that is read is turned away, and where.
ghost use Rattle.std.specs.Prelude.{◌≡◌, Some};
ghost use Rattle.receive_pages.specs.Refusal.{number, refusal_text};

use page_text::REFUSED_TEXT;
use std::fmt;

// Why a line or a store is turned away.
#[derive(Clone, Copy, Debug, PartialEq, Eq)]
pub enum Reason {
    // The receiver turns it away.
    Receiver(receiver::Refusal),
    // The line isn't bytes in hex.
    Text,
}

impl From<Reason> for u64 {
    ghost from_gives = { λ reason n. n ≡ number reason };

    fn from(reason: Reason) -> u64 {
        match reason {
            Reason::Receiver(refusal) => refusal.into(),
            Reason::Text => REFUSED_TEXT,
        }
    }
}

// Something that is turned away: for which reason, and where.
#[derive(Clone, Copy, Debug, PartialEq, Eq)]
pub struct Refusal {
    pub reason: Reason,
    pub place: u64,
}

impl fmt::Display for Refusal {
    ghost output = { λ refusal. Some (refusal_text refusal) };

    fn fmt<W: fmt::Write>(&self, f: &mut fmt::Formatter<W>) -> fmt::Result {
        write!(
            f,
            "refused {}, place {}",
            u64::from(self.reason),
            self.place
        )
    }
}
