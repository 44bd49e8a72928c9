//! The octets of a frame.
use link_params::{Mode, Params};
use sample_map::Layout;
use std::io;

pub fn run(rt: &HostRuntime) -> io::Result<()> {
    let (l, m, f, s, n, np, cs) = (2, 2, 2, 1, 14, 16, 2);
    let (mode, hd, scr, k, e) = (Mode::B, false, true, 32, 0);
    let params = Params {
        mode,
        l,
        m,
        f,
        s,
        n,
        np,
        cs,
        hd,
        scr,
        k,
        e,
    };
    let Ok(shape) = params.check() else {
        return Ok(());
    };
    let layout = Layout::new(&shape);
    let (mut octets, mut read) = ([0u8; 4], [0u32; 2]);
    layout.map(&[0xffff, 0x0001], &mut octets);
    layout.unmap(&octets, &mut read);
    println!(rt; "{octets:?} {read:?}")?;
    Ok(())
}
