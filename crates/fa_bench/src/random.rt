//! Numbers that look random, the same for the same seed.

ghost use Rattle.std.specs.Prelude.{◌≤◌};

/// A source of numbers (Steele, Lea and Flood, "Fast splittable pseudorandom number generators", 2014).
#[derive(Drop)]
pub struct Random {
    state: u64,
}

impl Random {
    pub fn new(seed: u64) -> Self {
        Random { state: seed }
    }

    /// The next number.
    pub fn number(&mut self) -> u64 {
        self.state = self.state.wrapping_add(0x9e37_79b9_7f4a_7c15);
        mixed(self.state)
    }

    /// A number below this one, or 0 where that is 0.
    pub fn below(&mut self, end: u64) -> u64
        ensures { result ≤ end }
    {
        let number = self.number();
        if end == 0 { 0 } else { number % end }
    }

    /// A place in a list of this length, or 0 where it is empty.
    pub fn place(&mut self, len: usize) -> usize {
        self.below(len as u64) as usize
    }

    /// True so many times of a hundred.
    pub fn percent(&mut self, times: u64) -> bool {
        self.below(100) < times
    }
}

/// A number of which each bit hangs on each bit of this one.
pub fn mixed(number: u64) -> u64 {
    let once = (number ^ (number >> 30)).wrapping_mul(0xbf58_476d_1ce4_e5b9);
    let twice = (once ^ (once >> 27)).wrapping_mul(0x94d0_49bb_1331_11eb);
    twice ^ (twice >> 31)
}
