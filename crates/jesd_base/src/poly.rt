//! Polynomials modulo 2.
ghost use Rattle.std.specs.Prelude.{◌≡◌, ◌≤◌, ◌<◌, ◌+◌, ◌^◌, ℕ};
ghost use Rattle.jesd_base.specs.Bits.{bits, value};
ghost use Rattle.jesd_base.specs.Division.{rem};

/// Polynomials modulo 2. In a list of bits the first one has the highest power; in a number the power of
/// a bit is its place from the lowest.
pub struct Poly;

impl Poly {
    /// The remainder of `dividend` by `divisor`, as in plain long division.
    pub fn rem(dividend: &[bool], divisor: u32) -> u32
        requires { 2 ≤ divisor }
        ensures { (degree : ℕ) → 2 ^ degree ≤ divisor → divisor < 2 ^ (degree + 1)
            → result ≡ value (rem (bits degree divisor) dividend.now) }
    {
        let degree = divisor.ilog2();
        let mut register: u64 = 0;
        for bit in dividend {
            register = 2 * register + u64::from(*bit);
            if register >> degree == 1 {
                register ^= u64::from(divisor);
            }
        }
        register as u32
    }
}
