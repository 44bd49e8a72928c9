//! A sink of bytes.
ghost use Rattle.std.specs.Prelude.{◌≡◌, ◌<◌, ◌≤◌, ℕ, List, Option, length, take, IfOk, OnErr, OnOk};
ghost use Rattle.jesd_base.specs.Streams.{Rose, Added};

use crate::source::Failed;

/// Where bytes go.
pub trait Sink {
    /// The bytes written, where the sink tells them.
    ghost written: { Self → Option (List ℕ) };

    /// How often the sink has failed. It stays at 2^64 - 1 once it is there.
    ghost faults: { Self → ℕ };

    /// Takes some of the bytes, the first ones and at least one, and answers how many.
    ///
    /// `Failed` comes only where the count of faults rose, and adds nothing. Else the count stays.
    fn write(&mut self, bytes: &[u8]) -> Result<usize, Failed>
        requires { 0 < length bytes.now }
        ensures some { IfOk result (λ n. 0 < n) }
        ensures room { IfOk result (λ n. n ≤ length bytes.now) }
        ensures next { IfOk result (λ n. Added (written self.old) (written self.new) (take n bytes.now)) }
        ensures nothing { OnErr result (written self.new ≡ written self.old) }
        ensures failed { OnErr result (Rose (faults self.old) (faults self.new)) }
        ensures same { IfOk result (λ _. faults self.new ≡ faults self.old) }
        ensures count { faults self.old ≤ faults self.new };
}

/// The sink failed before all was written.
#[derive(Clone, Copy, Debug, PartialEq, Eq)]
pub struct WriteFault;

/// Writes all of the bytes, or a prefix of them where the sink fails. The sink has failed exactly
/// where `WriteFault` is answered.
pub fn write_all<K: Sink>(out: &mut K, bytes: &[u8]) -> Result<(), WriteFault>
    ensures all { OnOk result (Added (K.written out.old) (K.written out.new) bytes.now) }
    ensures prefix { OnErr result ((n : ℕ) × (n ≤ length bytes.now)
        × Added (K.written out.old) (K.written out.new) (take n bytes.now)) }
    ensures rose { OnErr result (Rose (K.faults out.old) (K.faults out.new)) }
    ensures same { OnOk result (K.faults out.new ≡ K.faults out.old) }
    ensures count { K.faults out.old ≤ K.faults out.new }
{
    let mut at = 0;
    'writing: while at < bytes.len() {
        match out.write(&bytes[at..]) {
            Ok(n) => at += n,
            Err(Failed) => return Err(WriteFault),
        }
    }
    Ok(())
}
