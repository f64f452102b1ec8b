// A line on its way: what was sent, and the bits that are turned in each of its bytes.
ghost use Rattle.std.specs.Prelude.{Decides};
ghost use Rattle.line.specs.Line.{encode_line};
ghost use Rattle.line.specs.declared.Line.{Line};
ghost use Rattle.channel.specs.Air.{Turned};
ghost use Rattle.trials.specs.Told.{TwoTurned, LineOf};

use crate::sent::Sent;
use channel::turn_bits;
use line::Line;

// A line that was sent and comes with bits turned.
#[derive(Clone, Copy)]
pub struct Came {
    pub sent: Sent,
    pub bits: [u8; Line::LENGTH],
}

impl Came {
    // The bytes that come.
    pub(crate) fn bytes(&self) -> [u8; Line::LENGTH]
        ensures { (line : Line) × LineOf self.now.sent line × Turned (encode_line line) self.now.bits result }
    {
        turn_bits(&self.sent.line().encode(), &self.bits)
    }

    // Whether two bits are turned in one of the numbers' bytes.
    pub(crate) fn has_two(&self) -> bool
        ensures { Decides result (TwoTurned self.now.bits) }
    {
        self.bits[..Line::NUMBERS]
            .iter()
            .any(|byte| byte.count_ones() == Line::NUMBER_LIMIT)
    }
}
