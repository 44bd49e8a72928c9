//! The configuration that a lane names in its alignment sequence.

/// The values of the nineteen fields of a lane's configuration octets, as they are read (JESD204B.01 clause 8.3, link
/// configuration). `l`, `f`, `k`, `m`, `n`, `np` and `s` are one less than the number that they stand for.
#[derive(Clone, Copy, Debug, PartialEq, Eq)]
pub struct Config {
    /// DID, the device.
    pub did: u8,
    /// ADJCNT, the steps by which the phase is to be adjusted.
    pub adjcnt: u8,
    /// BID, the bank.
    pub bid: u8,
    /// ADJDIR, the direction of the adjustment.
    pub adjdir: u8,
    /// PHADJ: an adjustment is asked for.
    pub phadj: u8,
    /// LID, the lane.
    pub lid: u8,
    /// SCR: data octets are scrambled.
    pub scr: u8,
    /// L - 1.
    pub l: u8,
    /// F - 1.
    pub f: u8,
    /// K - 1.
    pub k: u8,
    /// M - 1.
    pub m: u8,
    /// CS, the control bits of a sample.
    pub cs: u8,
    /// N - 1.
    pub n: u8,
    /// SUBCLASSV, the subclass.
    pub subclass: u8,
    /// N' - 1.
    pub np: u8,
    /// JESDV, the version of the standard.
    pub version: u8,
    /// S - 1.
    pub s: u8,
    /// HD: a word may stand on two lanes.
    pub hd: u8,
    /// CF, the control words of a frame.
    pub cf: u8,
}

/// Octet 13 is neither the sum of the fields nor the sum of the octets.
#[derive(Clone, Copy, Debug, PartialEq, Eq)]
pub struct BadFchk;
