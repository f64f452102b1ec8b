// A row of a page as the line that sends it.
ghost use Rattle.std.specs.Prelude.{◌≤◌, MatchOption};
ghost use Rattle.line.specs.Size.{rows};
ghost use Rattle.page_text.specs.Lines.{LineOf};

use super::Page;
use line::Line;

impl Page {
    // The line of a row, or none if there is no such row.
    #[tactic(auto, using(crate::proofs::ValidLines::row_line_of))]
    pub fn row_line(&self, row: u8) -> Option<Line>
        ensures { MatchOption result (rows ≤ row) (λ m. LineOf self.now row m) }
    {
        let letters = self.rows().get(usize::from(row))?;
        Some(Line {
            page: self.number,
            version: self.version,
            row,
            letters: *letters,
        })
    }
}
