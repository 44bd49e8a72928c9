//! Parity and correction of a multiblock.
use fire_fec::{correct_uncounted, parity};
use std::io;

pub fn run(rt: &HostRuntime) -> io::Result<()> {
    let mut payload = [0u64; 32];
    payload[31] = 1;
    let check = parity(&payload);
    payload[0] ^= 0xff80_0000_0000_0000;
    let fix = correct_uncounted(&mut payload, check);
    let (first, last) = (payload[0], payload[31]);
    println!(rt; "{check:07x} {fix:?} {first:x} {last:x}")?;
    Ok(())
}
