//! Numbers by chance: the same from the same seed.

/// SplitMix64 (Steele, Lea, Flood: Fast Splittable Pseudorandom Number Generators, 2014).
#[derive(Clone, Copy)]
pub(crate) struct Chance {
    state: u64,
}

impl Chance {
    /// The numbers that follow from a seed, a sequence of its own for each use.
    pub(crate) fn of(seed: u64, using: u64) -> Chance {
        Chance {
            state: seed.wrapping_mul(0xd134_2543_de82_ef95).wrapping_add(using),
        }
    }

    fn next(&mut self) -> u64 {
        self.state = self.state.wrapping_add(0x9e37_79b9_7f4a_7c15);
        let a = self.state;
        let b = (a ^ (a >> 30)).wrapping_mul(0xbf58_476d_1ce4_e5b9);
        let c = (b ^ (b >> 27)).wrapping_mul(0x94d0_49bb_1331_11eb);
        c ^ (c >> 31)
    }

    /// A number below `count`; 0 where that is 0.
    pub(crate) fn below(&mut self, count: usize) -> usize {
        (self.next() >> 16).checked_rem(count as u64).unwrap_or(0) as usize
    }
}
