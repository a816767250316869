// Numbers by a fixed generator, the same on each run.

ghost use Rattle.std.specs.Prelude.{◌≡◌, ◌<◌, ◌%◌};
ghost use Rattle.lg_tally.specs.Random.{next, mixed};

/// The generator splitmix64.
#[derive(Clone, Copy)]
pub struct Random {
    pub state: u64,
}

impl Random {
    /// The next word.
    pub fn word(&mut self) -> u64
        ensures state { self.new.state ≡ next self.old.state }
        ensures value { result ≡ mixed self.new.state }
    {
        self.state = self.state.wrapping_add(0x9e37_79b9_7f4a_7c15);
        let word = self.state;
        let word = (word ^ (word >> 30)).wrapping_mul(0xbf58_476d_1ce4_e5b9);
        let word = (word ^ (word >> 27)).wrapping_mul(0x94d0_49bb_1331_11eb);
        word ^ (word >> 31)
    }

    /// A number below a bound, which is not 0: what is left of the next word by the bound.
    pub fn below(&mut self, bound: usize) -> usize
        requires { 0 < bound }
        ensures below { result < bound }
        ensures value { result ≡ mixed (next self.old.state) % bound }
        ensures state { self.new.state ≡ next self.old.state }
    {
        (self.word() % bound as u64) as usize
    }
}
