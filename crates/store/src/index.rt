// How the slot of a page is found: what stands in which slot is searched in the store, or known from a directory of it.
ghost use Rattle.std.specs.Prelude.{◌≡◌, ℕ, ◌<◌, false, List, length, MatchOption, ◌≢◌};
ghost use Rattle.store.specs.Layout.{slots, mark_at, holds};
ghost use Rattle.store.specs.Directory.{SamePlaces};
ghost use Rattle.store.specs.Writes.{Found, Free, Begun};

// What tells in which slot of a store each page stands, and is told of each page that is begun. Only this crate has such: its module is private.
pub trait SlotIndex {
    // whether it agrees with a store
    ghost agrees: { List ℕ → Self → Type 0 };

    // The slot of a page.
    fn find(&self, store: &[u8], page: u8) -> Option<usize>
        requires { agrees store.now self.now }
        ensures { MatchOption result ((k : ℕ) → k < slots store.now → holds store.now page k ≡ false) (λ i. Found store.now page i) };

    // The lowest slot that is free.
    fn free_slot(&mut self, store: &[u8]) -> Option<usize>
        requires { agrees store.now self.old }
        ensures slot { MatchOption result ((k : ℕ) → k < slots store.now → mark_at store.now k ≢ 0) (λ i. Free store.now i) }
        ensures agrees { agrees store.now self.new };

    // Notes the slot in which a page is begun that stood in none.
    fn note(&mut self, page: u8, slot: usize)
        ensures { (s t : List ℕ) (version : ℕ) → agrees s self.old → slot < 256 → Free s slot → length t ≡ length s → Begun s t slot page version → agrees t self.new };

    // a store in which the same pages stand in the same slots agrees with it too
    ghost kept: { (index : Self) (s t : List ℕ) → SamePlaces s t → agrees s index → agrees t index };
}
