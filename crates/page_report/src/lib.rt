// What is printed of a store: its pages, and how many lines were lost.
#![tactic(auto)]

ghost use Rattle.std.specs.Prelude.{◌≡◌, true, ◌&&◌, ◌++◌, string_bytes, MatchResult, OnOk};
ghost use Rattle.line.specs.Size.{rows};
ghost use Rattle.store.specs.Layout.{well_formed, page_in};
ghost use Rattle.page_report.specs.Report.{row_lines, heading_line, missing_line, page_report, shown_otherwise, counts_line, pages_there, pages_printed, pages_report, last_report};

use broadcast::{show_row, shown_version};
use line::ROWS;
use receiver::Counts;
use std::alloc::{AllocError, Global};

// Draws a page anew as it is printed, and says whether it is another than was shown before.
pub fn redraw_page(
    heap: Global,
    store: &[u8],
    page: u8,
    shown: &mut String,
) -> Result<bool, AllocError>
    ensures { MatchResult result (λ changed. (string_bytes shown.new ≡ page_report store.now page) × (changed ≡ shown_otherwise (string_bytes shown.old) store.now page)) (λ _. shown.new ≡ shown.old) }
{
    let mut text = String::new(heap);
    write_page(store, page, &mut text)?;
    let same = shown.as_str() == text.as_str();
    *shown = text;
    Ok(!same)
}

// Appends what is printed at the end: the pages that are asked for, in their order, or all that are there if none is;
// and the counts.
pub fn write_report(
    store: &[u8],
    pages: &[u8],
    counts: Counts,
    out: &mut String,
) -> Result<(), AllocError>
    ensures { OnOk result (string_bytes out.new ≡ string_bytes out.old ++ last_report store.now pages.now counts) }
{
    write_printed(store, pages, out)?;
    write_counts(counts, out)
}

// Appends the pages that are asked for, or all that are there if none is.
fn write_printed(store: &[u8], pages: &[u8], out: &mut String) -> Result<(), AllocError>
    ensures { OnOk result (string_bytes out.new ≡ string_bytes out.old ++ pages_report store.now (pages_printed store.now pages.now)) }
{
    if pages.is_empty() {
        write_pages_there(store, out)
    } else {
        write_pages(store, pages, out)
    }
}

// Appends all pages that are there, in order.
fn write_pages_there(store: &[u8], out: &mut String) -> Result<(), AllocError>
    ensures { OnOk result (string_bytes out.new ≡ string_bytes out.old ++ pages_report store.now (pages_there store.now 256)) }
{
    for page in 0..=u8::MAX {
        if shown_version(store, page.into()).is_some() {
            write_page(store, page, out)?;
        }
    }
    Ok(())
}

// Appends pages as they are printed, one after the other.
fn write_pages(store: &[u8], pages: &[u8], out: &mut String) -> Result<(), AllocError>
    ensures { OnOk result (string_bytes out.new ≡ string_bytes out.old ++ pages_report store.now pages.now) }
{
    for page in pages {
        write_page(store, *page, out)?;
    }
    Ok(())
}

// Appends a page as it is printed: a heading, and its rows as signs; or that it wasn't received.
#[tactic(auto, using(crate::proofs::PageReports::is_there, crate::proofs::PageReports::report_missing))]
pub fn write_page(store: &[u8], page: u8, out: &mut String) -> Result<(), AllocError>
    ensures { OnOk result (string_bytes out.new ≡ string_bytes out.old ++ page_report store.now page) }
{
    match shown_version(store, page.into()) {
        Some(version) => {
            write_heading(page, version, out)?;
            write_rows(store, page, out)
        }
        None => write_missing(page, out),
    }
}

// Appends the rows of a page that is there.
#[tactic(auto, unfolding(crate::specs::Report::row_lines))]
fn write_rows(store: &[u8], page: u8, out: &mut String) -> Result<(), AllocError>
    requires { (well_formed store.now && (page_in store.now page).there) ≡ true }
    ensures { OnOk result (string_bytes out.new ≡ string_bytes out.old ++ row_lines (page_in store.now page) rows) }
{
    for at in 0..ROWS as u64 {
        show_row(store, page.into(), at, out)?;
        out.push('\n')?;
    }
    Ok(())
}

// Appends the line above a page's rows.
fn write_heading(page: u8, version: u8, out: &mut String) -> Result<(), AllocError>
    ensures { OnOk result (string_bytes out.new ≡ string_bytes out.old ++ heading_line page version) }
{
    writeln!(out, "page {page} version {version}")
}

// Appends the line in place of a page that isn't there.
fn write_missing(page: u8, out: &mut String) -> Result<(), AllocError>
    ensures { OnOk result (string_bytes out.new ≡ string_bytes out.old ++ missing_line page) }
{
    writeln!(out, "page {page} not received")
}

// Appends the last line: how many lines were lost, and for how many there was no room.
pub fn write_counts(counts: Counts, out: &mut String) -> Result<(), AllocError>
    ensures { OnOk result (string_bytes out.new ≡ string_bytes out.old ++ counts_line counts.lost counts.full) }
{
    let Counts { lost, full } = counts;
    writeln!(out, "lost {lost}, full {full}")
}

#[cfg(test)]
mod tests {
    use super::*;
    use std::test::Fail;

    #[test]
    fn counts_behind_what_stands(rt: HostRuntime) -> Result<(), Fail> {
        let mut out = String::from_str(rt.alloc(), "> ")?;
        write_counts(Counts { lost: 3, full: 12 }, &mut out)?;
        assert_eq!(rt; out.as_str(), "> lost 3, full 12\n");
        Ok(())
    }

    #[test]
    fn report_without_pages(rt: HostRuntime) -> Result<(), Fail> {
        let counts = Counts { lost: 0, full: 0 };
        let mut out = String::new(rt.alloc());
        write_report(&[], &[7, 0], counts, &mut out)?;
        assert_eq!(rt;
            out.as_str(),
            "page 7 not received\npage 0 not received\nlost 0, full 0\n"
        );
        out.clear();
        write_report(&[], &[], counts, &mut out)?;
        assert_eq!(rt; out.as_str(), "lost 0, full 0\n");
        Ok(())
    }
}
