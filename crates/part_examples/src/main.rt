//! Uses of single crates: the text of each stands on the page of its crate.
#![tactic(auto)]

mod code_8b10b_use;
mod crc12_use;
mod fire_fec_use;
mod ilas_use;
mod lane_scramble_use;
mod sample_map_use;

use std::io;

fn main(rt: HostRuntime) -> io::Result<()> {
    code_8b10b_use::run(&rt)?;
    lane_scramble_use::run(&rt)?;
    sample_map_use::run(&rt)?;
    crc12_use::run(&rt)?;
    fire_fec_use::run(&rt)?;
    ilas_use::run(&rt)?;
    Ok(())
}
