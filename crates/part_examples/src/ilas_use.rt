//! The alignment sequence of a lane, received on another one.
use code_8b10b::Reading;
use ilas::{IlasCheck, ilas_char};
use link_params::{IlasState, Mode, Params, Timing};
use std::io;

pub fn run(rt: &HostRuntime) -> io::Result<()> {
    let (l, m, f, s, n, np, cs) = (2, 2, 2, 1, 16, 16, 0);
    let (mode, hd, scr, k, e) = (Mode::B, false, true, 32, 0);
    let params = Params {
        mode,
        l,
        m,
        f,
        s,
        n,
        np,
        cs,
        hd,
        scr,
        k,
        e,
    };
    let timing = Timing {
        sysref_period: 128,
        sysref_start: 2,
        tx_skew: 8,
        rx_skew: 120,
        tolerance: 7,
        rbd: 20,
        sync_delay: 5,
        w_lo: 5,
        w_hi: 20,
    };
    let Ok(shape) = params.check() else {
        return Ok(());
    };
    let Ok(link) = shape.with(&timing) else {
        return Ok(());
    };
    // `link` is made by `Params::check` and `Shape::with`, which refuse illegal parameters.
    let mut check = IlasCheck::new(&link, 0);
    let mut state = IlasState::Idle;
    for place in 0..4 * link.shape().period() {
        let sent = ilas_char(&link, 1, place);
        state = check.push(Reading::Char(sent));
    }
    println!(rt; "{state:?}")?;
    Ok(())
}
