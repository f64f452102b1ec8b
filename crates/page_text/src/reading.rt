// The reading of page texts, line by line, into the pages that they give.
ghost use Rattle.std.specs.Prelude.{◌≡◌, IfOk, MatchResult};
ghost use Rattle.page_text.specs.Reading.{Said, with_row, blank_page, has_page, what_says, read_on, at_start, read_text, pages_read};
ghost use Rattle.page_text.specs.Code.{reading, Taken, Tells};
ghost use Rattle.page_text.specs.Laws.{Sound, PagesAreSound, RefusalsAreFirst};

use super::items::{Heading, Item, read_item};
use super::row::Row;
use super::{BLANK, NEWLINE, PAGE_LETTERS, Page, TextError};
use line::{COLUMNS, ROWS};
use std::alloc::Global;
use text::lines::trim_return;

impl Page {
    // A page of blanks.
    #[tactic(auto, unfolding(crate::specs::Reading::blank_page))]
    fn blank(heading: Heading) -> Page
        ensures { result ≡ blank_page heading.page heading.version }
    {
        Page {
            number: heading.page,
            version: heading.version,
            letters: [BLANK; PAGE_LETTERS],
        }
    }

    // Writes a row's letters in their place.
    #[tactic(auto, using(crate::proofs::DraftPages::with_row_is))]
    fn set_row(&mut self, row: Row<'_>)
        ensures number { self.new.number ≡ self.old.number }
        ensures version { self.new.version ≡ self.old.version }
        ensures letters { self.new.letters ≡ with_row row.entry.number row.entry.letters.now self.old.letters }
    {
        // by index: of a slice's rows from `as_chunks_mut`, nothing says what the slice ends as
        let first = COLUMNS * usize::from(row.number);
        self.letters[first..first + COLUMNS].copy_from_slice(&row.padded());
    }
}

// Whether one of the pages has this number.
fn has_number(pages: &[Page], number: u8) -> bool
    ensures { result ≡ has_page number pages.now }
{
    pages.iter().any(|page| page.number == number)
}

// The pages begun so far, and which rows of the last one were given.
#[derive(Drop)]
struct Draft {
    pages: Vec<Page>,
    given: [bool; ROWS],
}

impl Draft {
    #[tactic(auto, unfolding(crate::specs::Reading::at_start, crate::specs::Reading::no_rows))]
    fn new(heap: Global) -> Draft
        ensures { reading result ≡ at_start }
    {
        Draft {
            pages: Vec::new(heap),
            given: [false; ROWS],
        }
    }

    #[tactic(auto, unfolding(crate::specs::Reading::read_on, crate::specs::Reading::no_rows))]
    fn begin_page(&mut self, heading: Heading, place: usize) -> Result<(), TextError>
        ensures { Taken (read_on (Said.heading heading.page heading.version) (reading self.old)) self.old self.new place result }
    {
        if has_number(self.pages.as_slice(), heading.page) {
            return Err(TextError::Refused(place));
        }
        self.pages.push(Page::blank(heading))?;
        self.given = [false; ROWS];
        Ok(())
    }

    #[tactic(auto, unfolding(crate::specs::Reading::read_on))]
    fn put_row(&mut self, row: Row<'_>, place: usize) -> Result<(), TextError>
        ensures { Taken (read_on (Said.row row.entry.number row.entry.letters.now) (reading self.old)) self.old self.new place result }
    {
        let index = usize::from(row.number);
        if self.given[index] {
            return Err(TextError::Refused(place));
        }
        let page = self.pages.last_mut().ok_or(TextError::Refused(place))?;
        page.set_row(row);
        self.given[index] = true;
        Ok(())
    }

    #[tactic(auto, unfolding(crate::specs::Reading::read_on))]
    fn take_line(&mut self, line: &[u8], place: usize) -> Result<(), TextError>
        ensures { Taken (read_on (what_says line.now) (reading self.old)) self.old self.new place result }
    {
        match read_item(line).ok_or(TextError::Refused(place))? {
            Item::Pass => Ok(()),
            Item::Heading(heading) => self.begin_page(heading, place),
            Item::Row(row) => self.put_row(row, place),
        }
    }

    fn finish(self) -> Vec<Page>
        ensures { result.items ≡ self.pages.items }
    {
        let Draft { pages, given: _ } = self;
        pages
    }
}

// The pages that a text gives, in its order, or the place of the first line that can't be read.
pub fn read_pages(heap: Global, text: &[u8]) -> Result<Vec<Page>, TextError>
    ensures outcome { MatchResult result (λ pages. read_text text.now ≡ pages_read pages.items) (λ e. Tells (read_text text.now) e) }
    ensures sound { IfOk result (λ pages. Sound pages.items) }
    ensures laws { (PagesAreSound) × (RefusalsAreFirst) }
{
    let mut draft = Draft::new(heap);
    // behind the last newline stands an empty line, which says nothing
    for (place, line) in text.split(|b| *b == NEWLINE).enumerate() {
        draft.take_line(trim_return(line), place)?;
    }
    Ok(draft.finish())
}
