// Trials of the receiver: random broadcasts beside a reference that is told what was sent, and pages sent whole into any store.
#![tactic(auto)]

mod broadcast;
mod came;
mod compare;
mod draw;
mod recovery;
mod reference;
mod sent;
mod shown;
mod tally;
mod trial;

use anyhow::anyhow;
use recovery::run_recovery;
use tally::Tally;
use trial::run_trial;

// Trials are run with the seeds from 1 to this one.
const TRIALS: u64 = 30;

const RECOVERIES: u64 = 400;

fn main(rt: HostRuntime) -> anyhow::Result<()> {
    run(&rt)
}

// Runs all trials, and prints what they count; where one fails, its seed and its line.
fn run(rt: &HostRuntime) -> anyhow::Result<()> {
    let mut tally = Tally::new();
    for seed in 1..=TRIALS {
        if let Some(line) = run_trial(rt.alloc(), seed, &mut tally)? {
            println!(rt; "trial with seed {seed}: not as the reference after line {line}")?;
            return Err(anyhow!("a trial failed"));
        }
    }
    for seed in 1..=RECOVERIES {
        if !run_recovery(rt.alloc(), seed, &mut tally)? {
            println!(rt; "recovery with seed {seed}: the page isn't whole")?;
            return Err(anyhow!("a recovery failed"));
        }
    }
    println!(rt; "{tally}")?;
    Ok(())
}
