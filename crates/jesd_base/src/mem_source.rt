//! A source in memory.
ghost use Rattle.std.specs.Prelude.{◌≡◌, ◌<◌, ◌≤◌, ◌↔◌, ◌-◌, ◌+◌, ◌^◌, ℕ, List, [], ◌++◌, Some, Contains, length, take, drop, min, IfOk, IsErr, IsTrue, OnErr};
ghost use Rattle.jesd_base.specs.Streams.{Rose, Gave, IsAtEnd};
ghost use Rattle.jesd_base.specs.kept.Memory.{Supply};

use crate::source::{Failed, Source};
use std::marker::Model;

/// Bytes in memory, given in pieces, with calls that fail.
#[derive(Drop)]
pub struct MemSource {
    bytes: Vec<u8>,
    at: usize,
    piece: usize,
    fails: Vec<u32>,
    calls: u64,
    faults: u64,
}

impl Model for MemSource {
    ghost Value = { Supply };

    ghost view = { λ s. record { left = drop s.at s.bytes.items; piece = s.piece; fails = s.fails.items; calls = s.calls; faults = s.faults } };

    ghost invariant = { λ s. (s.at ≤ length s.bytes.items) × (0 < s.piece) };
}

impl MemSource {
    /// A source of `bytes`, at most `piece` of them in a call. Call number i, counted from 0, fails
    /// where i is in `fails`.
    pub fn new(bytes: Vec<u8>, piece: usize, fails: Vec<u32>) -> MemSource
        requires { 0 < piece }
        ensures { result ≡ record { left = bytes.items; piece = piece; fails = fails.items; calls = 0; faults = 0 } }
    {
        MemSource {
            bytes,
            at: 0,
            piece,
            fails,
            calls: 0,
            faults: 0,
        }
    }
}

// Whether the call of this number fails.
pub(crate) fn is_among(fails: &[u32], call: u64) -> bool
    ensures { IsTrue result ↔ Contains fails.now call }
{
    fails.iter().any(|f| u64::from(*f) == call)
}

impl Source for MemSource {
    ghost left = { λ s. Some s.left };

    ghost faults = { λ s. s.faults };

    fn read(&mut self, buf: &mut [u8]) -> Result<usize, Failed>
        requires { 0 < length buf.old }
        ensures room { IfOk result (λ n. n ≤ length buf.new) }
        ensures next { IfOk result (λ n. self.old.left ≡ take n buf.new ++ self.new.left) }
        ensures end { IfOk result (λ n. n ≡ 0 → self.old.left ≡ []) }
        ensures nothing { OnErr result (self.new.left ≡ self.old.left) }
        ensures failed { OnErr result (Rose self.old.faults self.new.faults) }
        ensures same { IfOk result (λ _. self.new.faults ≡ self.old.faults) }
        ensures count { self.old.faults ≤ self.new.faults }
        ensures fails { IsErr result ↔ Contains self.old.fails self.old.calls }
        ensures piece { IfOk result (λ n. n ≡ min self.old.piece (min (length buf.old) (length self.old.left))) }
        ensures calls { self.new.calls ≡ min (self.old.calls + 1) (2 ^ 64 - 1) }
        ensures kept { (self.new.piece ≡ self.old.piece) × (self.new.fails ≡ self.old.fails) }
    {
        let call = self.calls;
        self.calls = call.saturating_add(1);
        if is_among(&self.fails, call) {
            self.faults = self.faults.saturating_add(1);
            return Err(Failed);
        }
        let n = self.piece.min(buf.len()).min(self.bytes.len() - self.at);
        buf[..n].copy_from_slice(&self.bytes[self.at..self.at + n]);
        self.at += n;
        Ok(n)
    }
}
