//! The parameters and the timing of a link, as they are written.

/// How lanes are coded.
#[derive(Clone, Copy, Debug, PartialEq, Eq)]
pub enum Mode {
    /// 8b/10b lanes (JESD204B.01, subclass 1).
    B,
    /// 64b/66b lanes with CRC-12 (JESD204C.1).
    CCrc,
    /// 64b/66b lanes with FEC, the shortened Fire code (JESD204C.1).
    CFec,
}

/// The parameters of a link (JESD204B.01 clause 8.3, link configuration).
#[derive(Clone, Copy, Debug, PartialEq, Eq)]
pub struct Params {
    /// How lanes are coded.
    pub mode: Mode,
    /// L, the lanes.
    pub l: u32,
    /// M, the converters.
    pub m: u32,
    /// F, the octets of a frame on a lane.
    pub f: u32,
    /// S, the samples of a converter in a frame.
    pub s: u32,
    /// N, the bits of a sample.
    pub n: u32,
    /// N', the bits of a word.
    pub np: u32,
    /// CS, the control bits of a sample.
    pub cs: u32,
    /// HD: a word may stand on two lanes.
    pub hd: bool,
    /// SCR: data octets are scrambled.
    pub scr: bool,
    /// K, the frames of a multiframe; 0 with 64b/66b lanes.
    pub k: u32,
    /// E, the multiblocks of an extended multiblock; 0 with 8b/10b lanes.
    pub e: u32,
}

/// The timing of a link. Skews and the tolerance are sixteenths of a tick, the rest are ticks.
#[derive(Clone, Copy, Debug, PartialEq, Eq)]
pub struct Timing {
    /// Ticks from one SYSREF edge to the next.
    pub sysref_period: u32,
    /// The tick of the first SYSREF edge.
    pub sysref_start: u32,
    /// How much later an edge comes at the transmitter.
    pub tx_skew: u32,
    /// How much later an edge comes at the receiver.
    pub rx_skew: u32,
    /// The jitter of an edge that both devices bear.
    pub tolerance: u32,
    /// RBD, from a receiver boundary to its release point.
    pub rbd: u32,
    /// How long SYNC~ takes to the transmitter.
    pub sync_delay: u32,
    /// The least arrival of a lane.
    pub w_lo: u32,
    /// The greatest arrival of a lane.
    pub w_hi: u32,
}
