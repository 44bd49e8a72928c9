//! A sink in memory.
ghost use Rattle.std.specs.Prelude.{◌≡◌, ◌<◌, ◌≤◌, ◌↔◌, ◌⊎◌, ◌-◌, ◌+◌, ◌^◌, ℕ, List, [], ◌++◌, Some, Contains, length, take, min, vec_len, vec_capacity, IfOk, IsErr, OnErr};
ghost use Rattle.jesd_base.specs.Streams.{Rose, Added};
ghost use Rattle.jesd_base.specs.kept.Memory.{Store};

use crate::mem_source::is_among;
use crate::sink::Sink;
use crate::source::Failed;
use crate::status::NoMemory;
use std::alloc::Global;
use std::marker::Model;

/// Bytes in memory, taken in pieces up to a room, with calls that fail. A full sink fails too.
#[derive(Drop)]
pub struct MemSink {
    bytes: Vec<u8>,
    room: usize,
    piece: usize,
    fails: Vec<u32>,
    calls: u64,
    faults: u64,
}

impl Model for MemSink {
    ghost Value = { Store };

    ghost view = { λ s. record { bytes = s.bytes.items; room = s.room; piece = s.piece; fails = s.fails.items; calls = s.calls; faults = s.faults } };

    ghost invariant = { λ s. (vec_len s.bytes ≤ s.room) × (s.room ≤ vec_capacity s.bytes) × (0 < s.piece) };
}

impl MemSink {
    /// An empty sink that takes `room` bytes in all, at most `piece` of them in a call. Call number i,
    /// counted from 0, fails where i is in `fails`.
    pub fn open(
        alloc: Global,
        room: usize,
        piece: usize,
        fails: Vec<u32>,
    ) -> Result<MemSink, NoMemory>
        requires { 0 < piece }
        ensures { IfOk result (λ s. s ≡ record { bytes = []; room = room; piece = piece; fails = fails.items; calls = 0; faults = 0 }) }
    {
        match Vec::with_capacity(alloc, room) {
            Ok(bytes) => Ok(MemSink {
                bytes,
                room,
                piece,
                fails,
                calls: 0,
                faults: 0,
            }),
            Err(_) => Err(NoMemory),
        }
    }

    /// The bytes taken so far.
    pub fn bytes(&self) -> &[u8]
        ensures { result.now ≡ self.now.bytes }
    {
        &self.bytes
    }
}

impl Sink for MemSink {
    ghost written = { λ s. Some s.bytes };

    ghost faults = { λ s. s.faults };

    fn write(&mut self, bytes: &[u8]) -> Result<usize, Failed>
        requires { 0 < length bytes.now }
        ensures some { IfOk result (λ n. 0 < n) }
        ensures room { IfOk result (λ n. n ≤ length bytes.now) }
        ensures next { IfOk result (λ n. self.new.bytes ≡ self.old.bytes ++ take n bytes.now) }
        ensures nothing { OnErr result (self.new.bytes ≡ self.old.bytes) }
        ensures failed { OnErr result (Rose self.old.faults self.new.faults) }
        ensures same { IfOk result (λ _. self.new.faults ≡ self.old.faults) }
        ensures count { self.old.faults ≤ self.new.faults }
        ensures fails { IsErr result ↔ (Contains self.old.fails self.old.calls ⊎ (self.old.room ≤ length self.old.bytes)) }
        ensures piece { IfOk result (λ n. n ≡ min self.old.piece (min (length bytes.now) (self.old.room - length self.old.bytes))) }
        ensures calls { self.new.calls ≡ min (self.old.calls + 1) (2 ^ 64 - 1) }
        ensures kept { (self.new.piece ≡ self.old.piece) × (self.new.room ≡ self.old.room) × (self.new.fails ≡ self.old.fails) }
    {
        let call = self.calls;
        self.calls = call.saturating_add(1);
        if is_among(&self.fails, call) || self.bytes.len() >= self.room {
            self.faults = self.faults.saturating_add(1);
            return Err(Failed);
        }
        let n = self
            .piece
            .min(bytes.len())
            .min(self.room - self.bytes.len());
        if self.bytes.extend_from_slice(&bytes[..n]).is_err() {
            unreachable!();
        }
        Ok(n)
    }
}
