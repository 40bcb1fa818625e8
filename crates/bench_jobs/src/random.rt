//! Numbers that follow from a seed.

ghost use Rattle.std.specs.Prelude.{◌<◌, ◌≤◌};

/// Numbers that follow from a seed (SplitMix64: Steele, Lea and Flood).
#[derive(Clone, Copy, Debug)]
pub struct Random {
    state: u64,
}

impl Random {
    pub fn new(seed: u64) -> Random {
        Random { state: seed }
    }

    /// The next number.
    fn next(&mut self) -> u64 {
        self.state = self.state.wrapping_add(0x9e37_79b9_7f4a_7c15);
        let x = (self.state ^ (self.state >> 30)).wrapping_mul(0xbf58_476d_1ce4_e5b9);
        let y = (x ^ (x >> 27)).wrapping_mul(0x94d0_49bb_1331_11eb);
        y ^ (y >> 31)
    }

    /// A number below `n`, or 0 where that is 0.
    pub fn below(&mut self, n: usize) -> usize
        ensures { result ≤ n }
    {
        let number = self.next();
        if n == 0 {
            return 0;
        }
        (number % n as u64) as usize
    }
}
