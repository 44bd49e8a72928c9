//! A source of bytes.
ghost use Rattle.std.specs.Prelude.{◌≡◌, ◌≢◌, ◌<◌, ◌≤◌, ◌+◌, ℕ, List, Option, Err, length, take, IfOk, OnErr};
ghost use Rattle.jesd_base.specs.Streams.{Rose, Gave, IsAtEnd};

use std::alloc::Global;

/// A source or a sink failed.
#[derive(Clone, Copy, Debug, PartialEq, Eq)]
pub struct Failed;

/// Where bytes come from.
pub trait Source {
    /// The bytes left, where the source tells them.
    ghost left: { Self → Option (List ℕ) };

    /// How often the source has failed. It stays at 2^64 - 1 once it is there.
    ghost faults: { Self → ℕ };

    /// Puts the next bytes at the start of `buf`, and answers how many; 0 is the end.
    ///
    /// `Failed` comes only where the count of faults rose, and takes nothing. Else the count stays.
    fn read(&mut self, buf: &mut [u8]) -> Result<usize, Failed>
        requires { 0 < length buf.old }
        ensures room { IfOk result (λ n. n ≤ length buf.new) }
        ensures next { IfOk result (λ n. Gave (left self.old) (left self.new) (take n buf.new)) }
        ensures end { IfOk result (λ n. n ≡ 0 → IsAtEnd (left self.old)) }
        ensures nothing { OnErr result (left self.new ≡ left self.old) }
        ensures failed { OnErr result (Rose (faults self.old) (faults self.new)) }
        ensures same { IfOk result (λ _. faults self.new ≡ faults self.old) }
        ensures count { faults self.old ≤ faults self.new };
}

/// Why not all was read.
#[derive(Clone, Copy, Debug, PartialEq, Eq)]
pub enum ReadAll {
    /// More than the limit was given before a fault.
    TooLong,
    /// The source failed, after no more than the limit.
    ReadFault,
    /// Memory ran out.
    NoMemory,
}

/// All bytes up to the end, which are at most `limit`.
///
/// The bytes that were taken before an error are gone: `limit` of them at most, and those of one
/// buffer of 4,096 bytes. The source has failed exactly where `ReadFault` is answered.
pub fn read_all<S: Source>(alloc: Global, input: &mut S, limit: usize) -> Result<Vec<u8>, ReadAll>
    ensures whole { IfOk result (λ v. Gave (S.left input.old) (S.left input.new) v.items × IsAtEnd (S.left input.new)) }
    ensures short { IfOk result (λ v. length v.items ≤ limit) }
    ensures too_long { result ≡ Err ReadAll.TooLong
        → (given : List ℕ) × (limit < length given) × Gave (S.left input.old) (S.left input.new) given }
    ensures read_fault { result ≡ Err ReadAll.ReadFault
        → (given : List ℕ) × (length given ≤ limit) × Gave (S.left input.old) (S.left input.new) given }
    ensures rose { result ≡ Err ReadAll.ReadFault → Rose (S.faults input.old) (S.faults input.new) }
    ensures most { (given : List ℕ) × (length given ≤ limit + 4096) × Gave (S.left input.old) (S.left input.new) given }
    ensures same { result ≢ Err ReadAll.ReadFault → S.faults input.new ≡ S.faults input.old }
    ensures count { S.faults input.old ≤ S.faults input.new }
{
    let mut all = Vec::new(alloc);
    let mut buf = [0; 4096];
    'reading: while all.len() <= limit {
        match input.read(&mut buf) {
            Ok(0) => return Ok(all),
            Ok(n) => {
                if all.extend_from_slice(&buf[..n]).is_err() {
                    return Err(ReadAll::NoMemory);
                }
            }
            Err(Failed) => return Err(ReadAll::ReadFault),
        }
    }
    Err(ReadAll::TooLong)
}
