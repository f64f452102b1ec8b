// The next line of a broadcast, as bytes.
ghost use Rattle.std.specs.Prelude.{◌≡◌, length, MatchOption};
ghost use Rattle.sender.specs.Schedule.{after, EachLineOnce};
ghost use Rattle.broadcast.specs.Sending.{Sends};

use line::Line;
use page_text::Page;
use sender::Schedule;

// The bytes of the line that goes now, and the schedule one line on; none if there are no pages, and then the schedule stays.
pub fn next_line(pages: &[Page], schedule: &mut Schedule) -> Option<[u8; Line::LENGTH]>
    ensures bytes { MatchOption result (length pages.now ≡ 0) (λ bytes. Sends pages.now schedule.old bytes) }
    ensures moved { schedule.new ≡ after (length pages.now) schedule.old }
    ensures once { EachLineOnce }
{
    let turn = sender::next(pages.len() as u64, schedule)?;
    let page = &pages[turn.page as usize];
    let line = page.row_line(turn.row as u8)?;
    Some(line.encode())
}
