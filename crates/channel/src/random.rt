// Numbers that look like chance and follow from a seed: Marsaglia's xorshift with a multiplier.
ghost use Rattle.std.specs.Prelude.{◌≡◌, ◌<◌, ◌≤◌};
ghost use Rattle.channel.specs.Random.{seeded, next_state, drawn, drawn_below, comes_about};

// The state for a seed of 0, from which no other would follow.
const NO_SEED: u64 = 0x9E37_79B9_7F4A_7C15;

const MULTIPLIER: u64 = 0x2545_F491_4F6C_DD1D;

// The generator: all that it holds is its state.
#[derive(Clone, Copy)]
pub struct Random {
    state: u64,
}

impl Random {
    // The generator of a seed.
    #[tactic(auto, unfolding(crate::specs::Random::seeded))]
    pub fn new(seed: u64) -> Random
        ensures { result.state ≡ seeded seed }
    {
        Random {
            state: if seed == 0 { NO_SEED } else { seed },
        }
    }

    // The next number.
    #[tactic(auto, unfolding(crate::specs::Random::next_state, crate::specs::Random::drawn))]
    pub fn next(&mut self) -> u64
        ensures answer { result ≡ drawn self.old.state }
        ensures state { self.new.state ≡ next_state self.old.state }
    {
        let a = self.state ^ (self.state >> 12);
        let b = a ^ (a << 25);
        let c = b ^ (b >> 27);
        self.state = c;
        c.wrapping_mul(MULTIPLIER)
    }

    // A number below a limit; 0 if the limit is 0.
    #[tactic(auto, unfolding(crate::specs::Random::drawn_below))]
    pub fn below(&mut self, limit: u64) -> u64
        ensures answer { result ≡ drawn_below limit self.old.state }
        ensures low { 0 < limit → result < limit }
        ensures bound { result ≤ limit }
        ensures state { self.new.state ≡ next_state self.old.state }
    {
        self.next().checked_rem(limit).unwrap_or(0)
    }

    // Whether it came about, by a chance of so many in a thousand.
    pub fn chance(&mut self, per_mille: u64) -> bool
        ensures answer { result ≡ comes_about per_mille self.old.state }
        ensures state { self.new.state ≡ next_state self.old.state }
    {
        self.below(THOUSAND) < per_mille
    }
}

const THOUSAND: u64 = 1000;
