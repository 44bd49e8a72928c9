//! The check of a multiblock.
use crc12::Crc12;
use std::io;

pub fn run(rt: &HostRuntime) -> io::Result<()> {
    let mut payload = [0u64; 32];
    payload[31] = 1;
    let mut check = Crc12::new();
    for block in payload {
        check.push64(block);
    }
    let value = check.value();
    println!(rt; "{value:03x}")?;
    Ok(())
}
