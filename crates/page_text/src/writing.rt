// The writing of page texts.
ghost use Rattle.std.specs.Prelude.{◌≡◌, ◌∷◌, ◌++◌, IfOk, decimal};
ghost use Rattle.page_text.specs.Code.{Appended};
ghost use Rattle.page_text.specs.Laws.{WrittenIsRead};
ghost use Rattle.page_text.specs.Written.{ended, heading_line, page_text};

use super::{NEWLINE, Page};
use line::COLUMNS;
use std::alloc::{AllocError, Global};

// Appends a page's heading.
#[tactic(auto, unfolding(crate::specs::Written::heading_line))]
fn write_heading(heap: Global, page: &Page, out: &mut Vec<u8>) -> Result<(), AllocError>
    ensures { Appended out.old.items out.new.items (ended (heading_line page.now.number page.now.version)) result }
{
    // by way of a String: `write!` into the Vec gives an io::Error, which is no AllocError
    let heading = format!(in heap; "page {} version {}\n", page.number, page.version)?;
    out.extend_from_slice(heading.as_bytes())
}

// Appends a row: its number, and its letters, which may be any bytes.
fn write_row(
    heap: Global,
    row: usize,
    letters: &[u8; COLUMNS],
    out: &mut Vec<u8>,
) -> Result<(), AllocError>
    ensures { Appended out.old.items out.new.items (ended (decimal row ++ (32 ∷ letters.now))) result }
{
    // by way of a String, as in the heading
    let number = format!(in heap; "{row} ")?;
    out.extend_from_slice(number.as_bytes())?;
    out.extend_from_slice(letters)?;
    out.push(NEWLINE)?;
    Ok(())
}

// The text of a page: a heading, and every row.
#[tactic(auto, using(crate::proofs::RoundTrip::written_is_read))]
pub fn write_page(heap: Global, page: &Page) -> Result<Vec<u8>, AllocError>
    ensures text { IfOk result (λ bytes. bytes.items ≡ page_text page.now) }
    ensures law { WrittenIsRead }
{
    let mut out = Vec::new(heap);
    write_heading(heap, page, &mut out)?;
    let rows = page.rows();
    for (row, letters) in rows.iter().enumerate() {
        write_row(heap, row, letters, &mut out)?;
    }
    Ok(out)
}
