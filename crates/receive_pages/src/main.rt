// Receives pages: takes lines in hex from standard input into a store, and prints its pages at the end.
#![tactic(auto)]

mod gathering;
mod intake;
mod keeping;
mod refusal;

use anyhow::anyhow;
use command_line::input::{InputError, each_line};
use command_line::receive::{Command, Options, OptionsError, read_command};
use command_line::words::{behind_name, if_utf8, print_usage, refuse};
use intake::{Intake, TakeError};
use keeping::replace_file;
use line::Line;
use page_report::{redraw_page, write_report};
use refusal::{Reason, Refusal};
use std::io::{BufReader, Write};
use std::process::ExitCode;
use std::{env, io};
use store_file::{OpenError, Unusable, open_store};
use text::lines::trim_newline;

const USAGE: &str = "usage: receive_pages [--slots N] [--store FILE] [--follow PAGE] [PAGE ..]
Takes lines in hex from standard input into a store of N slots, 1 to 60 (60 if not given),
and prints each PAGE, 0 to 255, in this order, or all pages that came.
  --store FILE   keep the store in FILE: read first if it is there, and replaced at the end
  --follow PAGE  show this page at the start, and anew each time that a line changed it";

// Lines wait until there are so many bytes of them.
const MOST_WAITING: usize = 1024 * Line::LENGTH;

// Moves a terminal's cursor to the top, and clears the screen.
const CLEAR_SCREEN: &str = "\x1b[H\x1b[2J";

fn main(rt: HostRuntime) -> anyhow::Result<ExitCode> {
    let Some(args) = if_utf8(env::args(&rt))? else {
        return Ok(refuse(&rt, USAGE));
    };
    let words = behind_name(rt.alloc(), args).map_err(io::Error::from)?;
    match read_command(rt.alloc(), words.as_slice()) {
        Ok(Command::Help) => print_usage(&rt, USAGE),
        Ok(Command::Receive(options)) => receive_pages(&rt, &options),
        Err(OptionsError::Wrong) => Ok(refuse(&rt, USAGE)),
        Err(OptionsError::Memory) => Err(anyhow!("no memory")),
    }
}

// Receives into the store that is asked for, if it can be used.
fn receive_pages(rt: &HostRuntime, options: &Options) -> anyhow::Result<ExitCode> {
    match open_store(rt, options.store.as_deref(), options.slots) {
        Ok(store) => {
            run(rt, options, store)?;
            Ok(ExitCode::SUCCESS)
        }
        Err(OpenError::Unfit(_, Unusable::Fault(slot))) => refuse_store(rt, slot),
        Err(OpenError::Unfit(_, Unusable::OtherSlots)) => Ok(refuse(rt, USAGE)),
        Err(OpenError::Io(e)) => Err(store_error(e)),
    }
}

// Says which slot of the store's file isn't as it should be.
fn refuse_store(rt: &HostRuntime, slot: usize) -> anyhow::Result<ExitCode> {
    let refusal = Refusal {
        reason: Reason::Receiver(receiver::Refusal::Store),
        place: slot as u64,
    };
    eprintln!(rt; "store: {refusal}")?;
    Ok(ExitCode::FAILURE)
}

// Takes all of the input, keeps the store, and prints what is asked for, also where the store can't be kept.
fn run(rt: &HostRuntime, options: &Options, store: Vec<u8>) -> anyhow::Result<()> {
    let mut intake = Intake::new(rt.alloc(), store);
    take_input(rt, options.follow, &mut intake)?;
    let kept = keep_store(rt, options, intake.store.as_slice());
    print_report(rt, &intake, options.pages.as_slice())?;
    kept
}

// Puts the store into its file, if one is asked for.
fn keep_store(rt: &HostRuntime, options: &Options, store: &[u8]) -> anyhow::Result<()> {
    let Some(path) = options.store.as_deref() else {
        return Ok(());
    };
    replace_file(rt, path, store).map_err(store_error)
}

// An error that says that it is the store's.
fn store_error(e: io::Error) -> anyhow::Error {
    anyhow!("store: {e}")
}

// Prints the pages that are asked for, and the counts.
fn print_report(rt: &HostRuntime, intake: &Intake, pages: &[u8]) -> anyhow::Result<()> {
    let mut text = String::new(rt.alloc());
    let store = intake.store.as_slice();
    write_report(store, pages, intake.counts, &mut text)?;
    rt.print(text.as_str())?;
    Ok(())
}

// Takes each line of the input into the store, and says which are turned away. A page that is followed is shown after each line, so lines wait only if none is.
fn take_input(rt: &HostRuntime, follow: Option<u8>, intake: &mut Intake) -> anyhow::Result<()> {
    match follow {
        Some(page) => take_shown(rt, page, intake),
        None => take_gathered(rt, intake),
    }
}

// Takes the lines one by one, and shows a page as they change it.
fn take_shown(rt: &HostRuntime, page: u8, intake: &mut Intake) -> anyhow::Result<()> {
    let input = BufReader::new(rt.alloc(), rt.stdin())?;
    let mut shown = String::new(rt.alloc());
    show_followed(rt, page, intake.store.as_slice(), &mut shown)?;
    each_line(
        rt.alloc(),
        input,
        |number, line| -> Result<(), InputError> {
            if let Err(e) = intake.take_text(trim_newline(line), number) {
                say_untaken(rt, number, e)?;
            }
            show_followed(rt, page, intake.store.as_slice(), &mut shown)
        },
    )?;
    Ok(())
}

// Takes the lines many at once.
fn take_gathered(rt: &HostRuntime, intake: &mut Intake) -> anyhow::Result<()> {
    let input = BufReader::new(rt.alloc(), rt.stdin())?;
    let count = each_line(
        rt.alloc(),
        input,
        |number, line| -> Result<(), InputError> {
            let taken = intake.gather(trim_newline(line), number);
            // most lines end here: whatever follows may fail, and room for why would be laid out for each
            if taken.is_ok() && intake.waiting.len() < MOST_WAITING {
                return Ok(());
            }
            end_line(rt, number, taken, intake)
        },
    )?;
    flush(rt, count, intake)?;
    Ok(())
}

// Says why a line is turned away, if it is, and takes the lines that wait, if there are many.
fn end_line(
    rt: &HostRuntime,
    number: u64,
    taken: Result<(), TakeError>,
    intake: &mut Intake,
) -> Result<(), InputError> {
    if let Err(e) = taken {
        say_untaken(rt, number, e)?;
    }
    if intake.waiting.len() >= MOST_WAITING {
        flush(rt, number, intake)?;
    }
    Ok(())
}

// Takes the lines that wait, up to the one with this number. They are whole lines, and the store was checked, so none is turned away here; if they were, it
// would be said as of any line.
fn flush(rt: &HostRuntime, number: u64, intake: &mut Intake) -> Result<(), InputError> {
    if let Err(refusal) = intake.take_waiting() {
        say_untaken(rt, number, refusal.into())?;
    }
    Ok(())
}

// Says that a line of the input is turned away; that there is no memory is an error.
fn say_untaken(rt: &HostRuntime, number: u64, e: TakeError) -> Result<(), InputError> {
    match e {
        TakeError::TurnedAway(refusal) => eprintln!(rt; "line {number}: {refusal}")?,
        TakeError::Memory(none) => return Err(none.into()),
    }
    Ok(())
}

// Shows the page that is followed in place of what was shown before, if it is another.
fn show_followed(
    rt: &HostRuntime,
    page: u8,
    store: &[u8],
    shown: &mut String,
) -> Result<(), InputError> {
    if redraw_page(rt.alloc(), store, page, shown)? {
        let text = shown.as_str();
        print!(rt; "{CLEAR_SCREEN}{text}")?;
        rt.stdout().flush()?;
    }
    Ok(())
}
