// Lines for C: a line taken, with its answer as a number, many lines at once, and the places of refusals.
ghost use Rattle.std.specs.Prelude.{◌≡◌};
ghost use Rattle.bridge.specs.Numbers.{answer_number, Answered, PlaceOrNone, AnsweredLines, LinesPlaceOrNone};

use receiver::{Counts, Done, lines_refusal_place, refusal_place, take_line, take_lines};

// The answers of `demborugy_take_line`; a refusal's number is added to `REFUSED`. They are numbers since C's are, which `include/demborugy.h` names.
const TOOK: u64 = 0;

const LOST: u64 = 1;

const FULL: u64 = 2;

const REFUSED: u64 = 2;

// What stands for the place of a refusal where nothing is turned away.
const NO_PLACE: u64 = u64::MAX;

// The number of an answer.
fn answer_number(done: Done) -> u64
    ensures { result ≡ answer_number done }
{
    match done {
        Done::Took => TOOK,
        Done::Lost => LOST,
        Done::Full => FULL,
        Done::Refused(refusal) => REFUSED + u64::from(refusal),
    }
}

// Takes a line into a lent store. The answer is 0 if the line was taken, 1 if it is lost, 2 if there is no room, and 2 + n if it is turned away with number n.
#[unsafe(no_mangle)]
pub extern "C" fn demborugy_take_line(line: &[u8], store: &mut [u8]) -> u64
    ensures { Answered line.now store.old result store.new }
{
    answer_number(take_line(line, store))
}

// The place of a refusal, and the largest number if the line isn't turned away.
#[unsafe(no_mangle)]
pub extern "C" fn demborugy_refusal_place(line: &[u8], store: &[u8]) -> u64
    ensures { PlaceOrNone line.now store.now result }
{
    refusal_place(line, store).unwrap_or(NO_PLACE)
}

// Takes lines that are laid end to end into a lent store, and counts in `lost` and `full` those that are lost and those without room. The answer is 0, or 2 + n if they are turned away with number n.
#[unsafe(no_mangle)]
pub extern "C" fn demborugy_take_lines(
    lines: &[u8],
    store: &mut [u8],
    lost: &mut u64,
    full: &mut u64,
) -> u64
    ensures { AnsweredLines lines.now store.old (record { lost = lost.entry.now; full = full.old }) result store.new (record { lost = lost.exit.now; full = full.new }) }
{
    let mut counts = Counts {
        lost: *lost,
        full: *full,
    };
    let answer = match take_lines(lines, store, &mut counts) {
        Ok(()) => TOOK,
        Err(refusal) => REFUSED + u64::from(refusal),
    };
    *lost = counts.lost;
    *full = counts.full;
    answer
}

// The place of a refusal of many lines, and the largest number if they aren't turned away.
#[unsafe(no_mangle)]
pub extern "C" fn demborugy_lines_refusal_place(lines: &[u8], store: &[u8]) -> u64
    ensures { LinesPlaceOrNone lines.now store.now result }
{
    lines_refusal_place(lines, store).unwrap_or(NO_PLACE)
}
