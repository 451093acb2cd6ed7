ghost use Rattle.std.specs.Prelude.{◌≡◌, ◌≤◌, ◌<◌, ℕ, [], Some, true, false, length, take, IfOk, OnErr, MatchResult};
ghost use Rattle.io_edge.specs.Rose.{Rose};
ghost use Rattle.io_edge.specs.Gained.{Gained};
ghost use Rattle.io_edge.specs.MemSink.{write_fails, taken, after_write};

use crate::fault::Failed;
use crate::numbers::is_among;
use crate::sink::Sink;
use std::alloc::Global;
use std::marker::Model;
use value_core::OutOfMemory;

/// A sink in memory whose writes fail at chosen numbers, or when it is full.
#[derive(Drop)]
pub struct MemSink {
    bytes: Vec<u8>,
    room: usize,
    largest: usize,
    fails: Vec<u64>,
    writes: u64,
    count: u64,
}

impl Model for MemSink {
    ghost use Rattle.std.specs.Prelude.{◌≤◌, length};
    ghost use Rattle.std.specs.Vec.{vec_capacity};
    ghost use Rattle.io_edge.specs.MemSink.{MemBytes};

    ghost Value = { MemBytes };

    ghost view = { λ s. record { bytes = s.bytes.items; room = s.room; largest = s.largest; fails = s.fails.items; writes = s.writes; count = s.count } };

    ghost invariant = { λ s. (length s.bytes.items ≤ s.room) × (s.room ≤ vec_capacity s.bytes) × (1 ≤ s.largest) };
}

impl MemSink {
    /// An empty sink with this much room, whose writes take at most `largest` bytes and fail at these numbers.
    pub fn new(
        alloc: Global,
        room: usize,
        largest: usize,
        fails: Vec<u64>,
    ) -> Result<MemSink, OutOfMemory>
        requires { 1 ≤ largest }
        ensures { IfOk result (λ s. s ≡ record { bytes = []; room = room; largest = largest; fails = fails.items; writes = 0; count = 0 }) }
    {
        let bytes = Vec::with_capacity(alloc, room)?;
        Ok(MemSink {
            bytes,
            room,
            largest,
            fails,
            writes: 0,
            count: 0,
        })
    }

    /// The bytes that were written.
    pub fn bytes(&self) -> &[u8]
        ensures { result.now ≡ self.now.bytes }
    {
        self.bytes.as_slice()
    }
}

impl Sink for MemSink {
    ghost written = { λ s. Some s.bytes };

    ghost faults = { λ s. s.count };

    fn write(&mut self, bytes: &[u8]) -> Result<usize, Failed>
        ensures within { IfOk result (λ n. n ≤ length bytes.now) }
        ensures some { IfOk result (λ n. 0 < length bytes.now → 0 < n) }
        ensures gained { MatchResult result (λ n. Gained (Some self.old.bytes) (Some self.new.bytes) (take n bytes.now)) (λ _. self.new.bytes ≡ self.old.bytes) }
        ensures kept { self.old.count ≤ self.new.count }
        ensures failed { OnErr result (Rose self.old.count self.new.count) }
        ensures answer { MatchResult result (λ n. (n ≡ taken self.old bytes.now) × (write_fails self.old bytes.now ≡ false)) (λ _. write_fails self.old bytes.now ≡ true) }
        ensures after { self.new ≡ after_write self.old bytes.now }
    {
        self.writes = self.writes.saturating_add(1);
        let left = self.room - self.bytes.len();
        if is_among(&self.fails, self.writes) || (left == 0 && !bytes.is_empty()) {
            self.count = self.count.saturating_add(1);
            return Err(Failed);
        }
        let taken = bytes.len().min(self.largest).min(left);
        match self.bytes.extend_from_slice(&bytes[..taken]) {
            Ok(()) => Ok(taken),
            Err(_) => unreachable!(),
        }
    }
}
