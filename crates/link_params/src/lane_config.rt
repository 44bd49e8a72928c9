//! The configuration octets of a lane (JESD204B.01 clause 8.3, link configuration).
ghost use Rattle.std.specs.Prelude.{ℕ, ◌≡◌, ◌≤◌, ◌<◌, ◌+◌, ◌/◌, ◌%◌, ◌^◌, true, false, sum, take, slice_index, MatchResult};
ghost use Rattle.link_params.specs.declared.fields.Params.{Params};
ghost use Rattle.link_params.specs.declared.fields.Mode.TheVariants.{B};
ghost use Rattle.link_params.specs.Config.{one_if, config_octets, config_of, read_values, has_sum, differs, first_difference};

use crate::config::{BadFchk, Config};
use crate::link::Link;

// The compared bits of the octets 0 to 12.
const MASKS: [u8; 13] = [
    0, 0, 0x1F, 0x9F, 0xFF, 0x1F, 0xFF, 0xDF, 0xFF, 0x1F, 0x9F, 0, 0,
];

/// The fourteen octets that a lane sends in its alignment sequence. Octet 13 is the sum of the fields modulo 256.
pub fn config_octets(link: &Link, lane: u32) -> [u8; 14]
    requires mode { link.now.params.mode ≡ B }
    requires lane { lane < link.now.params.l }
    ensures { result ≡ config_octets link.now.params lane }
{
    let p = link.shape().params();
    let (scr, hd) = (one_if(p.scr), one_if(p.hd));
    let (l, f, k, m) = (p.l - 1, p.f - 1, p.k - 1, p.m - 1);
    let (n, np, s) = (p.n - 1, p.np - 1, p.s - 1);
    let sum = lane + scr + l + f + k + m + p.cs + n + 1 + np + 1 + s + hd;
    [
        0,
        0,
        lane as u8,
        (128 * scr + l) as u8,
        f as u8,
        k as u8,
        m as u8,
        (64 * p.cs + n) as u8,
        (32 + np) as u8,
        (32 + s) as u8,
        (128 * hd) as u8,
        0,
        0,
        (sum % 256) as u8,
    ]
}

/// The values of the fields in fourteen octets that were read.
///
/// `BadFchk` where octet 13 is neither the sum of the fields nor the sum of the octets 0 to 12, modulo 256.
pub fn read_config(octets: &[u8; 14]) -> Result<Config, BadFchk>
    ensures { MatchResult result (λ c. (has_sum octets.now ≡ true) × (c ≡ config_of (read_values octets.now))) (λ _. has_sum octets.now ≡ false) }
{
    let config = fields_of(octets);
    if is_sum(octets, &config) {
        Ok(config)
    } else {
        Err(BadFchk)
    }
}

/// The least octet of 0 to 12 that differs from the lane's in its compared bits.
pub fn first_difference(octets: &[u8; 14], link: &Link, lane: u32) -> Option<u32>
    requires mode { link.now.params.mode ≡ B }
    requires lane { lane < link.now.params.l }
    ensures { result ≡ first_difference link.now.params lane octets.now }
{
    let due = config_octets(link, lane);
    for index in 0..13 {
        if is_other(&due, index, octets[index as usize]) {
            return Some(index);
        }
    }
    None
}

/// Whether one octet of 0 to 12 differs from the lane's in its compared bits.
pub fn octet_differs(link: &Link, lane: u32, index: u32, octet: u8) -> bool
    requires mode { link.now.params.mode ≡ B }
    requires lane { lane < link.now.params.l }
    requires index { index < 13 }
    ensures { result ≡ differs link.now.params lane index octet }
{
    is_other(&config_octets(link, lane), index, octet)
}

fn one_if(bit: bool) -> u32
    ensures value { result ≡ one_if bit }
    ensures bound { result ≤ 1 }
{
    if bit { 1 } else { 0 }
}

// Whether an octet of 0 to 12 differs from the one that is due, in its compared bits.
fn is_other(due: &[u8; 14], index: u32, octet: u8) -> bool
    requires { index < 13 }
    ensures { (p : Params) (lane : ℕ) → due.now ≡ config_octets p lane → result ≡ differs p lane index octet }
{
    let mask = MASKS[index as usize];
    octet & mask != due[index as usize] & mask
}

// The bits of a field: so many, from the lowest on.
fn bits_of(octet: u8, low: u32, bits: u32) -> u8
    requires low { low < 8 }
    requires bits { bits ≤ 8 }
    ensures { result ≡ octet / 2 ^ low % 2 ^ bits }
{
    let size = 1_u16 << bits;
    (u16::from(octet >> low) % size) as u8
}

fn fields_of(octets: &[u8; 14]) -> Config
    ensures { result ≡ config_of (read_values octets.now) }
{
    Config {
        did: bits_of(octets[0], 0, 8),
        adjcnt: bits_of(octets[1], 4, 4),
        bid: bits_of(octets[1], 0, 4),
        adjdir: bits_of(octets[2], 6, 1),
        phadj: bits_of(octets[2], 5, 1),
        lid: bits_of(octets[2], 0, 5),
        scr: bits_of(octets[3], 7, 1),
        l: bits_of(octets[3], 0, 5),
        f: bits_of(octets[4], 0, 8),
        k: bits_of(octets[5], 0, 5),
        m: bits_of(octets[6], 0, 8),
        cs: bits_of(octets[7], 6, 2),
        n: bits_of(octets[7], 0, 5),
        subclass: bits_of(octets[8], 5, 3),
        np: bits_of(octets[8], 0, 5),
        version: bits_of(octets[9], 5, 3),
        s: bits_of(octets[9], 0, 5),
        hd: bits_of(octets[10], 7, 1),
        cf: bits_of(octets[10], 0, 5),
    }
}

// Whether octet 13 is one of the two sums, where these are the fields.
fn is_sum(octets: &[u8; 14], config: &Config) -> bool
    ensures { config.now ≡ config_of (read_values octets.now) → result ≡ has_sum octets.now }
{
    let of_fields = sum_of_fields(config);
    let of_octets = sum_of_octets(octets);
    octets[13] == of_fields || octets[13] == of_octets
}

// The sum of the fields modulo 256.
fn sum_of_fields(c: &Config) -> u8
    ensures { result ≡ (c.now.did + c.now.adjcnt + c.now.bid + c.now.adjdir + c.now.phadj + c.now.lid + c.now.scr + c.now.l + c.now.f + c.now.k
        + c.now.m + c.now.cs + c.now.n + c.now.subclass + c.now.np + c.now.version + c.now.s + c.now.hd + c.now.cf) % 256 }
{
    let first = u32::from(c.did)
        + u32::from(c.adjcnt)
        + u32::from(c.bid)
        + u32::from(c.adjdir)
        + u32::from(c.phadj);
    let second = u32::from(c.lid)
        + u32::from(c.scr)
        + u32::from(c.l)
        + u32::from(c.f)
        + u32::from(c.k)
        + u32::from(c.m);
    let third = u32::from(c.cs)
        + u32::from(c.n)
        + u32::from(c.subclass)
        + u32::from(c.np)
        + u32::from(c.version);
    ((first + second + third + u32::from(c.s) + u32::from(c.hd) + u32::from(c.cf)) % 256) as u8
}

// The sum of the octets 0 to 12 modulo 256.
fn sum_of_octets(octets: &[u8; 14]) -> u8
    ensures { result ≡ sum (take 13 octets.now) % 256 }
{
    let mut sum: u32 = 0;
    let first = &octets[..13];
    for octet in first {
        sum += u32::from(*octet);
    }
    (sum % 256) as u8
}
