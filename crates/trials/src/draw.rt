// Numbers that are drawn, as the bytes and the indices that they are used as.
ghost use Rattle.std.specs.Prelude.{◌≡◌, ◌<◌, ◌≤◌};
ghost use Rattle.channel.specs.Random.{drawn_below, next_state};

use channel::Random;

// A byte below a limit; 0 if the limit is 0.
pub(crate) fn draw_byte(random: &mut Random, limit: u64) -> u8
    requires { limit ≤ 256 }
    ensures answer { result ≡ drawn_below limit random.old.state }
    ensures low { 0 < limit → result < limit }
    ensures state { random.new.state ≡ next_state random.old.state }
{
    random.below(limit) as u8
}

// An index of so many elements; 0 if there are none.
pub(crate) fn draw_index(random: &mut Random, count: usize) -> usize
    ensures answer { result ≡ drawn_below count random.old.state }
    ensures low { 0 < count → result < count }
    ensures bound { result ≤ count }
    ensures state { random.new.state ≡ next_state random.old.state }
{
    random.below(count as u64) as usize
}
