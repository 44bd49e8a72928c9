//! The scrambler of octets.
use lane_scramble::Scr15;
use std::io;

pub fn run(rt: &HostRuntime) -> io::Result<()> {
    let mut sender = Scr15::new();
    let mut receiver = Scr15::new();
    for octet in [0x00, 0xff, 0x7c] {
        let sent = sender.scramble(octet);
        let read = receiver.descramble(sent);
        println!(rt; "{octet:02x} {sent:02x} {read:02x}")?;
    }
    Ok(())
}
