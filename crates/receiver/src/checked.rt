// Lines into a store that was checked, each by the directory of its pages.
ghost use Rattle.std.specs.Prelude.{◌≡◌, ◌/◌, ◌%◌, true, length};
ghost use Rattle.std.proofs.Props.{props};
ghost use Rattle.store.specs.Layout.{well_formed};
ghost use Rattle.store.specs.Directory.{Lists};
ghost use Rattle.receiver.specs.Entry.{Answers};
ghost use Rattle.receiver.specs.Batch.{TakenFirst};

use crate::entry::{Counts, Done};
use line::{Line, read_header};
use store::{Directory, apply_line};

// A lent store that was checked, with its directory: the store is as it should be, and the directory agrees with it, as long as this lasts.
#[derive(Drop)]
pub(crate) struct Checked<'a> {
    pub(crate) store: &'a mut [u8],
    pub(crate) directory: Directory,
    ghost formed: { well_formed store.now ≡ true },
    ghost lists: { Lists store.now directory } by { Prim.hlevel props },
}

impl Checked<'_> {
    // Takes a line of 46 bytes.
    #[tactic(auto, using(crate::proofs::Steps::not_refused))]
    fn take(&mut self, line: &[u8]) -> Done
        requires { length line.now ≡ 46 }
        ensures answer { Answers line.now self.old.store.now result self.new.store.now }
        ensures named { self.new.store.ghost_name ≡ self.old.store.ghost_name }
    {
        let Some(header) = read_header(line) else {
            return Done::Lost;
        };
        match apply_line(self.store, &mut self.directory, header, line) {
            Some(_) => Done::Took,
            None => Done::Full,
        }
    }

    // Takes lines that are laid end to end, one after the other, and counts them; the answer is that of the last one. A single line goes this way too, so that
    // taking one is written out in one place, the loop.
    pub(crate) fn take_each(&mut self, lines: &[u8], counts: &mut Counts) -> Done
        requires { length lines.now % 46 ≡ 0 }
        ensures taken { TakenFirst lines.now self.old.store.now counts.old self.new.store.now counts.new (length lines.now / 46) }
        ensures single { length lines.now ≡ 46 → Answers lines.now self.old.store.now result self.new.store.now }
        ensures named { self.new.store.ghost_name ≡ self.old.store.ghost_name }
    {
        let mut done = Done::Took;
        // counted here and written once, so that no line waits for the lent counts
        let mut total = *counts;
        for line in lines.chunks_exact(Line::LENGTH) {
            done = self.take(line);
            total.count(done);
        }
        *counts = total;
        done
    }
}
