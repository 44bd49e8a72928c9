//! The 8b/10b code and the hunt for commas.
use code_8b10b::{Char, Hunt, K28_5, Rd, code_laws, decode, encode};
use std::io;

pub fn run(rt: &HostRuntime) -> io::Result<()> {
    code_laws(); // a spelling has ten bits: `decode` and `push` ask for it
    let mut rd = Rd::Minus;
    let mut hunt = Hunt::new();
    for _ in 0..4 {
        let Some((word, next)) = encode(rd, Char::Control(K28_5)) else {
            return Ok(());
        };
        let (reading, _) = decode(rd, word);
        let lock = hunt.push(word);
        println!(rt; "{word:03x} {reading:?} {lock:?}")?;
        rd = next;
    }
    Ok(())
}
