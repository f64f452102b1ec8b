// Why what comes is turned away: its length, or the store that it is for.
ghost use Rattle.std.specs.Prelude.{◌≡◌, true, MatchOption, MatchResult};
ghost use Rattle.store.specs.Layout.{well_formed};
ghost use Rattle.store.specs.Directory.{Lists};
ghost use Rattle.receiver.specs.Entry.{number, turned_away, PlaceOf};

use store::{Directory, find_fault, read_directory};

// Why lines are turned away.
#[derive(Clone, Copy, Debug, PartialEq, Eq)]
pub enum Refusal {
    // The line isn't 46 bytes long, or many aren't whole lines.
    Line = 1,
    // The store isn't as it should be.
    Store = 2,
}

// The number of a refusal.
impl From<Refusal> for u64 {
    ghost from_gives = { λ refusal n. n ≡ number refusal };

    fn from(refusal: Refusal) -> u64 {
        refusal as u64
    }
}

// The directory of the store that lines are for, unless they are turned away; `whole` says whether they have the length that they should.
#[tactic(auto, using(store::proofs::Faults::faulty), unfolding(crate::specs::Entry::turned_away))]
pub(crate) fn accept(whole: bool, store: &[u8]) -> Result<Directory, Refusal>
    ensures { MatchResult result (λ d. (whole ≡ true) × (well_formed store.now ≡ true) × Lists store.now d) (λ f. turned_away whole store.now ≡ number f) }
{
    if !whole {
        return Err(Refusal::Line);
    }
    read_directory(store).map_err(|_| Refusal::Store)
}

// The place of a refusal of lines of this length: the length, or the first slot of the store that isn't as it should be; none if they aren't turned away.
#[tactic(auto, using(store::proofs::Faults::faulty), unfolding(crate::specs::Entry::turned_away))]
pub(crate) fn place(whole: bool, length: usize, store: &[u8]) -> Option<u64>
    ensures { MatchOption result (turned_away whole store.now ≡ 0) (λ p. PlaceOf (turned_away whole store.now) length store.now p) }
{
    if !whole {
        return Some(length as u64);
    }
    find_fault(store).map(|slot| slot as u64)
}
