// Many lines at once: the store is checked once, and each line finds its page by the directory.
ghost use Rattle.std.specs.Prelude.{◌≡◌, MatchOption, MatchResult};
ghost use Rattle.receiver.specs.Entry.{number};
ghost use Rattle.receiver.specs.Batch.{lines_refusal, TookLines, RefusedLines, LinesRefusedAt};

use crate::checked::Checked;
use crate::entry::Counts;
use crate::refusal::{Refusal, accept, place};
use line::Line;

// Takes lines that are laid end to end into a lent store, and counts them: as `receive` does, one after the other. Why, if they are turned away.
pub fn take_lines(lines: &[u8], store: &mut [u8], counts: &mut Counts) -> Result<(), Refusal>
    ensures { MatchResult result (λ _. TookLines lines.now store.old counts.old store.new counts.new) (λ f. RefusedLines (number f) lines.now store.old counts.old store.new counts.new) }
{
    let directory = accept(lines.len() % Line::LENGTH == 0, store)?;
    let mut checked = Checked { store, directory };
    checked.take_each(lines, counts);
    Ok(())
}

// The place of a refusal of many lines: their length in bytes, or the first slot of the store that isn't as it should be; none if they aren't turned away.
pub fn lines_refusal_place(lines: &[u8], store: &[u8]) -> Option<u64>
    ensures { MatchOption result (lines_refusal lines.now store.now ≡ 0) (λ p. LinesRefusedAt lines.now store.now p) }
{
    place(lines.len() % Line::LENGTH == 0, lines.len(), store)
}
