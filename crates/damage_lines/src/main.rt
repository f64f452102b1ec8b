// The air between a sender and a receiver: reads lines in hex from standard input, and writes them lost and damaged at random, within their limits.
#![tactic(auto)]

mod passing;

use command_line::damage::{Command, Settings, read_command};
use command_line::input::{InputError, each_line};
use command_line::words::{behind_name, print_usage, refuse};
use passing::Air;
use std::env;
use std::io::{BufReader, Write};
use std::process::ExitCode;

const USAGE: &str = "usage: damage_lines [--seed N] [--lose N] [--numbers N] [--letters N]
Reads lines in hex from standard input, and writes them as they may come over the air.
Of a thousand lines N are lost (50 if not given), of a thousand bytes of numbers N have one or two bits turned (20),
of a thousand bytes of letters N have a bit turned (50). A seed gives the same damage each time (1).
What isn't a line of 46 bytes is written as it is.";

// Rows are written out once there is so much of them.
const WRITTEN_AT: usize = 65536;

fn main(rt: HostRuntime) -> anyhow::Result<ExitCode> {
    let words = behind_name(rt.alloc(), env::args(&rt)?)?;
    match read_command(words.as_slice()) {
        Some(Command::Help) => print_usage(&rt, USAGE),
        Some(Command::Damage(settings)) => {
            run(&rt, settings)?;
            Ok(ExitCode::SUCCESS)
        }
        None => Ok(refuse(&rt, USAGE)),
    }
}

// Takes each row of the input, and writes what comes of it.
fn run(rt: &HostRuntime, settings: Settings) -> anyhow::Result<()> {
    let input = BufReader::new(rt.alloc(), rt.stdin())?;
    let mut air = Air::new(rt.alloc(), settings);
    each_line(
        rt.alloc(),
        input,
        |_number, row| -> Result<(), InputError> {
            air.pass_row(row)?;
            if air.out.len() >= WRITTEN_AT {
                rt.stdout().write_all(air.out.as_slice())?;
                air.out.clear();
            }
            Ok(())
        },
    )?;
    rt.stdout().write_all(air.out.as_slice())?;
    Ok(())
}
