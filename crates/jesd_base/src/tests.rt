//! Tests.
use crate::Poly;

#[test]
fn remainders_by_hand(rt: HostRuntime) {
    // x^2 + 1 is (x + 1)^2
    assert_eq!(rt; Poly::rem(&[true, false, true], 0b11), 0);
    // x^3 + x^2 + x + 1 leaves 1 by x^2 + x + 1
    assert_eq!(rt; Poly::rem(&[true, true, true, true], 0b111), 1);
    assert_eq!(rt; Poly::rem(&[true], 0b11), 1);
    assert_eq!(rt; Poly::rem(&[], 2), 0);
}
