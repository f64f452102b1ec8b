// Which line goes next: the sender goes round over the pages line by line, row 0 of each page in turn, then row 1 of
// each, up to the last row, and begins again.
ghost use Rattle.std.specs.Prelude.{◌≡◌, ◌<◌};
ghost use Rattle.line.specs.Size.{rows};
ghost use Rattle.sender.specs.Schedule.{in_range, turn, one_on, after, turn_at, EachLineOnce};

const ROWS: u64 = line::ROWS as u64;

// Where the sender stands: the place of the next page in the list of pages, and the row. A number that is out of
// range, as after a page was taken away, counts as 0.
#[derive(Clone, Copy, Debug, Default, PartialEq, Eq)]
pub struct Schedule {
    pub page: u64,
    pub row: u64,
}

// A line that goes: the place of its page in the list of pages, and its row. Unlike a schedule's, both are in range.
#[derive(Clone, Copy, Debug, PartialEq, Eq)]
pub struct Turn {
    pub page: u64,
    pub row: u64,
}

// The line that goes now, of `pages` pages, and the schedule one line on. With no pages no line goes, and the schedule
// stays as it is.
#[tactic(auto, using(crate::proofs::Rounds::each_line_once, std::proofs::lemmas::Bool::Decides::nat_tests), unfolding(crate::specs::Schedule::turn, crate::specs::Schedule::after, crate::specs::Schedule::in_range))]
pub fn next(pages: u64, schedule: &mut Schedule) -> Option<Turn>
    ensures answer { result ≡ turn pages schedule.old }
    ensures moved { schedule.new ≡ after pages schedule.old }
    ensures law { EachLineOnce }
{
    if pages == 0 {
        return None;
    }
    let page = in_range(schedule.page, pages);
    let row = in_range(schedule.row, ROWS);
    *schedule = one_on(pages, page, row);
    Some(Turn { page, row })
}

// The line that goes after `ahead` more: what one call of `next` after another answers. The schedule stays as it is.
#[tactic(auto, using(crate::proofs::Rounds::turns_none, crate::proofs::Rounds::turns_more))]
pub fn look_ahead(pages: u64, schedule: &Schedule, ahead: u64) -> Option<Turn>
    ensures { result ≡ turn_at pages schedule.now ahead }
{
    let mut later = *schedule;
    for _gone in 0..ahead {
        let _ = next(pages, &mut later);
    }
    next(pages, &mut later)
}

// The number, or 0 where it is out of range.
#[tactic(auto, using(std::proofs::lemmas::Bool::Decides::nat_tests), unfolding(crate::specs::Schedule::in_range))]
fn in_range(number: u64, limit: u64) -> u64
    ensures { result ≡ in_range limit number }
{
    if number < limit { number } else { 0 }
}

// The schedule one line on.
#[tactic(auto, using(std::proofs::lemmas::Bool::Decides::nat_tests), unfolding(crate::specs::Schedule::one_on))]
fn one_on(pages: u64, page: u64, row: u64) -> Schedule
    requires page { page < pages }
    requires row { row < rows }
    ensures { result ≡ one_on pages page row }
{
    if page + 1 < pages {
        Schedule {
            page: page + 1,
            row,
        }
    } else {
        Schedule {
            page: 0,
            row: in_range(row + 1, ROWS),
        }
    }
}

#[cfg(test)]
mod tests {
    use super::*;

    #[test]
    fn two_pages(rt: HostRuntime) {
        let mut schedule = Schedule::default();
        assert_eq!(rt; next(2, &mut schedule), Some(Turn { page: 0, row: 0 }));
        assert_eq!(rt; next(2, &mut schedule), Some(Turn { page: 1, row: 0 }));
        assert_eq!(rt; next(2, &mut schedule), Some(Turn { page: 0, row: 1 }));
        assert_eq!(rt; look_ahead(2, &schedule, 0), Some(Turn { page: 1, row: 1 }));
        assert_eq!(rt;
            look_ahead(2, &schedule, 46),
            Some(Turn { page: 1, row: 24 })
        );
        assert_eq!(rt;
            look_ahead(2, &schedule, 47),
            Some(Turn { page: 0, row: 0 })
        );
    }

    #[test]
    fn no_pages_and_fewer_pages(rt: HostRuntime) {
        let mut schedule = Schedule { page: 7, row: 3 };
        assert_eq!(rt; next(0, &mut schedule), None);
        assert_eq!(rt; schedule.page, 7);
        assert_eq!(rt; next(2, &mut schedule), Some(Turn { page: 0, row: 3 }));
        assert_eq!(rt; schedule.page, 1);
    }
}
