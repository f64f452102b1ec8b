// Sends pages: reads a page text from standard input, and writes the lines of its pages in hex.
#![tactic(auto)]

mod sending;

use command_line::send::{Command, read_command};
use command_line::words::{behind_name, if_utf8, print_usage, refuse};
use page_text::{Page, TextError, read_pages};
use sending::Sending;
use std::io::Read;
use std::process::ExitCode;
use std::{env, io};

const USAGE: &str = "usage: send_pages [--rounds N]
Reads a page text from standard input, and writes the lines of its pages in hex,
row 0 of each page, then row 1 of each and so on, N times (once if not given).";

// Lines are written out once there is so much of them.
const WRITTEN_AT: usize = 65536;

fn main(rt: HostRuntime) -> anyhow::Result<ExitCode> {
    let Some(args) = if_utf8(env::args(&rt))? else {
        return Ok(refuse(&rt, USAGE));
    };
    let words = behind_name(rt.alloc(), args).map_err(io::Error::from)?;
    match read_command(words.as_slice()) {
        Some(Command::Help) => print_usage(&rt, USAGE),
        Some(Command::Send(rounds)) => run(&rt, rounds),
        None => Ok(refuse(&rt, USAGE)),
    }
}

// Reads the text, and sends its pages; a text that can't be read is refused with its first bad line.
fn run(rt: &HostRuntime, rounds: u64) -> anyhow::Result<ExitCode> {
    let text = read_input(rt)?;
    match read_pages(rt.alloc(), text.as_slice()) {
        Ok(pages) => {
            send(rt, pages.as_slice(), rounds)?;
            Ok(ExitCode::SUCCESS)
        }
        Err(e) => refuse_text(rt, e),
    }
}

// Says which line of the text can't be read; that there is no memory is an error.
fn refuse_text(rt: &HostRuntime, e: TextError) -> anyhow::Result<ExitCode> {
    match e {
        TextError::Refused(place) => {
            eprintln!(rt; "line {place}: {e}")?;
            Ok(ExitCode::FAILURE)
        }
        TextError::Memory => Err(e.into()),
    }
}

// All of the input.
fn read_input(rt: &HostRuntime) -> anyhow::Result<Vec<u8>> {
    let mut text = Vec::new(rt.alloc());
    rt.stdin().read_to_end(&mut text)?;
    Ok(text)
}

// Goes round over the pages, and writes their lines.
fn send(rt: &HostRuntime, pages: &[Page], rounds: u64) -> anyhow::Result<()> {
    let mut sending = Sending::new(rt.alloc(), pages);
    for _round in 0..rounds {
        sending.write_round()?;
        if sending.lines.len() >= WRITTEN_AT {
            rt.print(sending.lines.as_str())?;
            sending.lines.clear();
        }
    }
    rt.print(sending.lines.as_str())?;
    Ok(())
}
