//! Numbers by a linear congruential generator.

ghost use Rattle.std.specs.Prelude.{◌<◌, ◌^◌};

/// A generator. Its numbers depend on its seed alone.
#[derive(Clone, Copy, Debug, PartialEq, Eq)]
pub struct Random {
    state: u64,
}

impl Random {
    /// The generator of a seed.
    pub fn new(seed: u64) -> Random {
        Random {
            state: seed.wrapping_mul(2).wrapping_add(1),
        }
    }

    /// The next 31 bits.
    pub fn next(&mut self) -> u64
        ensures { result < 2 ^ 31 }
    {
        self.state = self
            .state
            .wrapping_mul(6_364_136_223_846_793_005)
            .wrapping_add(1_442_695_040_888_963_407);
        self.state >> 33
    }

    /// A number below the limit; 0 below 0.
    pub fn below(&mut self, limit: u64) -> u64
        ensures below { 0 < limit → result < limit }
        ensures small { result < 2 ^ 31 }
    {
        let next = self.next();
        if limit == 0 { 0 } else { next % limit }
    }

    /// Whether one of a hundred dice is below this many.
    pub fn is_below(&mut self, hundredths: u64) -> bool {
        self.below(100) < hundredths
    }
}
