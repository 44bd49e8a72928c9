//! The octets of a frame, lane by lane.
ghost use Rattle.std.specs.Prelude.{◌≡◌, ◌<◌, ◌≤◌, ◌+◌, ◌-◌, ◌*◌, ◌^◌, ℕ, All, fold, length, replicate};
ghost use Rattle.link_run.specs.kept.Handed.{with_frames, with_octets};

/// Sets the number of each lane to 0.
pub(crate) fn clear(handed: &mut [u64])
    ensures { handed.new ≡ replicate (length handed.old) 0 }
{
    match handed {
        [only] => *only = 0,
        _ => handed.fill(0),
    }
}

/// Puts `count` octets of each lane, from octet `at` of a frame on, behind the number of the lane.
/// The frame has `size` octets on a lane.
#[inline(always)]
pub(crate) fn add_octets(octets: &[u8], size: usize, at: usize, count: usize, handed: &mut [u64])
    requires octets { length octets.now ≡ length handed.old * size }
    requires at { at + count ≤ size }
    requires few { count ≤ 8 }
    requires small { All (λ v. v < 256 ^ (8 - count)) handed.old }
    ensures handed { handed.new ≡ with_octets octets.now size at count handed.old }
    ensures small { (m : ℕ) → All (λ v. v < m) handed.old
        → All (λ v. v < m * 256 ^ count) handed.new }
{
    match handed {
        [only] => *only = joined(*only, &octets[at..at + count]),
        _ => add_each(octets, size, at, count, handed),
    }
}

/// Puts all octets of each lane behind the number of the lane, which is 0: those of some frames,
/// one after the other, each with `size` octets on a lane.
pub(crate) fn add_frames(octets: &[u8], size: usize, handed: &mut [u64])
    ghost n: { ℕ }
    requires some { 0 < n }
    requires all { 0 < length handed.old * size }
    requires octets { length octets.now ≡ n * (length handed.old * size) }
    requires few { n * size ≤ 8 }
    requires none { handed.old ≡ replicate (length handed.old) 0 }
    ensures handed { handed.new
        ≡ with_frames octets.now size (length handed.old * size) n handed.old }
    ensures small { All (λ v. v < 256 ^ (n * size)) handed.new }
{
    let all = handed.len() * size;
    let mut from = 0;
    while from < octets.len() {
        add_octets(&octets[from..from + all], size, 0, size, handed);
        from += all;
    }
}

// The same, lane by lane.
fn add_each(octets: &[u8], size: usize, at: usize, count: usize, handed: &mut [u64])
    requires octets { length octets.now ≡ length handed.old * size }
    requires at { at + count ≤ size }
    requires few { count ≤ 8 }
    requires small { All (λ v. v < 256 ^ (8 - count)) handed.old }
    ensures handed { handed.new ≡ with_octets octets.now size at count handed.old }
    ensures small { (m : ℕ) → All (λ v. v < m) handed.old
        → All (λ v. v < m * 256 ^ count) handed.new }
{
    for (lane, number) in handed.iter_mut().enumerate() {
        let start = lane * size + at;
        *number = joined(*number, &octets[start..start + count]);
    }
}

/// These octets as one number, the first one most significant.
#[inline(always)]
pub(crate) fn number_of(octets: &[u8]) -> u64
    requires few { length octets.now ≤ 8 }
    ensures value { result ≡ fold (λ v octet. v * 256 + octet) 0 octets.now }
    ensures small { result < 256 ^ length octets.now }
{
    joined(0, octets)
}

// A number with these octets behind it.
fn joined(number: u64, octets: &[u8]) -> u64
    requires few { length octets.now ≤ 8 }
    requires small { number < 256 ^ (8 - length octets.now) }
    ensures { result ≡ fold (λ v octet. v * 256 + octet) number octets.now }
{
    match octets {
        [a, b, c, d, e, f, g, h] => u64::from_be_bytes([*a, *b, *c, *d, *e, *f, *g, *h]),
        [a] => number * 256 + u64::from(*a),
        [a, b] => number * 65_536 + u64::from(u16::from_be_bytes([*a, *b])),
        [a, b, c, d] => number * 4_294_967_296 + u64::from(u32::from_be_bytes([*a, *b, *c, *d])),
        _ => joined_each(number, octets),
    }
}

// The same, an octet at a time.
fn joined_each(number: u64, octets: &[u8]) -> u64
    requires few { length octets.now ≤ 8 }
    requires small { number < 256 ^ (8 - length octets.now) }
    ensures { result ≡ fold (λ v octet. v * 256 + octet) number octets.now }
{
    let mut all = number;
    for octet in octets {
        all = all * 256 + u64::from(*octet);
    }
    all
}
