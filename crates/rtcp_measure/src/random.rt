//! Random numbers, the same at each run.

/// A generator of Steele, Lea and Flood (SplitMix64).
#[derive(Clone, Copy, Debug)]
pub struct Random {
    state: u64,
}

impl Random {
    /// The numbers that follow a state.
    pub fn begun_at(state: u64) -> Random {
        Random { state }
    }

    /// The numbers of a seed.
    pub fn new(seed: u32) -> Random {
        Random { state: mixed(seed) }
    }

    /// The next 64 bits.
    pub fn long(&mut self) -> u64 {
        self.state = self.state.wrapping_add(0x9e37_79b9_7f4a_7c15);
        let mut mixed = self.state;
        mixed = (mixed ^ (mixed >> 30)).wrapping_mul(0xbf58_476d_1ce4_e5b9);
        mixed = (mixed ^ (mixed >> 27)).wrapping_mul(0x94d0_49bb_1331_11eb);
        mixed ^ (mixed >> 31)
    }

    /// The next word.
    pub fn word(&mut self) -> u32 {
        (self.long() >> 32) as u32
    }

    /// A number below `bound`, which is below 2^16, or 0 where that is 0.
    pub fn below(&mut self, bound: u32) -> u32 {
        share(self.long() >> 48, bound)
    }
}

/// A number below `bound`, which is below 2^16, by 16 random bits.
pub fn share(bits: u64, bound: u32) -> u32 {
    (((bits & 0xffff) * u64::from(bound & 0xffff)) >> 16) as u32
}

/// An SSRC for each source, below 2,048, of each session: two of one seed have two. Another seed puts all of them into
/// another order, so that no set of them comes back.
pub fn ssrc_of(seed: u32, session: u32, source: u32) -> u32 {
    let key = mixed(seed);
    let number = session.wrapping_mul(2_048).wrapping_add(source);
    let mut ssrc = number ^ ((key & 0xffff_ffff) as u32);
    ssrc = (ssrc ^ (ssrc >> 16)).wrapping_mul(0x85eb_ca6b) ^ ((key >> 32) as u32);
    ssrc = (ssrc ^ (ssrc >> 13)).wrapping_mul(0xc2b2_ae35);
    ssrc ^ (ssrc >> 16)
}

/// 64 bits of a seed: two seeds have two. All generators go along one cycle of 2^64 states, on which neighbours among
/// the seeds begin far apart.
fn mixed(seed: u32) -> u64 {
    let mut mixed = u64::from(seed).wrapping_add(0x6a09_e667_f3bc_c908);
    mixed = (mixed ^ (mixed >> 33)).wrapping_mul(0xff51_afd7_ed55_8ccd);
    mixed = (mixed ^ (mixed >> 33)).wrapping_mul(0xc4ce_b9fe_1a85_ec53);
    mixed ^ (mixed >> 33)
}
