// What one line of a page text says: a heading, a row, nothing, or nothing that can be read.
ghost use Rattle.std.specs.Prelude.{◌≡◌, Some, None, MatchOption};
ghost use Rattle.page_text.specs.Reading.{read_heading, what_says};
ghost use Rattle.page_text.specs.Code.{said};

use super::row::{Row, read_row};
use super::words::{after_word, read_number};

// Pages and versions have up to three digits.
const PAGE_PLACES: usize = 3;

const COMMENT: u8 = b'#';

// A heading: the page that it begins, and its version.
#[derive(Clone, Copy)]
pub(super) struct Heading {
    pub(super) page: u8,
    pub(super) version: u8,
}

#[tactic(auto, unfolding(crate::specs::Reading::read_heading, crate::specs::Reading::and_then))]
fn read_heading(line: &[u8]) -> Option<Heading>
    ensures { MatchOption result (read_heading line.now ≡ None) (λ h. read_heading line.now ≡ Some (h.page, h.version)) }
{
    let first = after_word(line, b"page ")?;
    let page = read_number(first, PAGE_PLACES, u8::MAX)?;
    let second = after_word(page.rest, b" version ")?;
    let version = read_number(second, PAGE_PLACES, u8::MAX)?;
    if !version.rest.is_empty() {
        return None;
    }
    Some(Heading {
        page: page.value,
        version: version.value,
    })
}

// What a line that can be read says.
#[derive(Clone, Copy)]
pub(super) enum Item<'a> {
    Pass,
    Heading(Heading),
    Row(Row<'a>),
}

// What a line says, or none if it can't be read.
#[tactic(auto, unfolding(crate::specs::Reading::what_says, crate::specs::Reading::heading_or_row))]
pub(super) fn read_item<'a>(line: &'a [u8]) -> Option<Item<'a>>
    ensures { said result ≡ what_says line.now }
{
    if let [] | [COMMENT, ..] = line {
        return Some(Item::Pass);
    }
    // no `or_else`: a function that answers a part of the line is not covered there
    if let Some(heading) = read_heading(line) {
        return Some(Item::Heading(heading));
    }
    read_row(line).map(Item::Row)
}
