// What the trials count; a count stops at its largest.
ghost use Rattle.std.specs.Prelude.{◌≡◌, Some};
ghost use Rattle.trials.specs.Counts.{nothing, with_answer, with_row, with_recovery, tally_text};

use line::COLUMNS;
use receiver::Done;
use std::fmt;

#[derive(Clone, Copy, Default)]
pub struct Tally {
    pub taken: u64,
    pub lost: u64,
    pub full: u64,
    pub refused: u64,
    pub letters: u64,
    pub recovered: u64,
    pub without_room: u64,
}

impl Tally {
    // Nothing yet.
    pub fn new() -> Tally
        ensures { result ≡ nothing }
    {
        Tally::default()
    }

    // A line, by its answer.
    pub fn count_answer(&mut self, answer: Done)
        ensures { self.new ≡ with_answer self.old answer }
    {
        match answer {
            Done::Took => self.taken = self.taken.saturating_add(1),
            Done::Lost => self.lost = self.lost.saturating_add(1),
            Done::Full => self.full = self.full.saturating_add(1),
            Done::Refused(_) => self.refused = self.refused.saturating_add(1),
        }
    }

    // A row whose letters were compared.
    pub fn count_row(&mut self)
        ensures { self.new ≡ with_row self.old }
    {
        self.letters = self.letters.saturating_add(COLUMNS as u64);
    }

    // A page that was sent whole: it stands whole, or there was no room for it.
    pub fn count_recovery(&mut self, whole: bool)
        ensures { self.new ≡ with_recovery self.old whole }
    {
        if whole {
            self.recovered = self.recovered.saturating_add(1);
        } else {
            self.without_room = self.without_room.saturating_add(1);
        }
    }
}

// As it is printed, in three lines.
impl fmt::Display for Tally {
    ghost output = { λ tally. Some (tally_text tally) };

    fn fmt<W: fmt::Write>(&self, f: &mut fmt::Formatter<W>) -> fmt::Result {
        let Tally {
            taken,
            lost,
            full,
            refused,
            letters,
            recovered,
            without_room,
        } = self;
        writeln!(
            f,
            "lines: {taken} taken, {lost} lost, {full} without room, {refused} refused"
        )?;
        writeln!(f, "letters compared: {letters}")?;
        write!(
            f,
            "pages sent whole: {recovered} recovered, {without_room} without room"
        )
    }
}
