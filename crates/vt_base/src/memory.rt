// A source and a sink in memory, whose calls fail by schedule.
ghost use Rattle.std.specs.Io.{ReadsAtMost, WritesAtMost};
ghost use Rattle.std.specs.Io.KnownBytes.{ReadConsumes, WriteAppends};
ghost use Rattle.std.specs.Prelude.{◌≡◌, ◌+◌, ◌<◌, ◌≤◌, length, min, take, drop, IfOk, IsOk, IsTrue, MatchResult, Some, [], is_err};
ghost use Rattle.vt_base.specs.Faults.{Counts};
ghost use Rattle.vt_base.specs.Memory.{called, called_as, is_steady, is_to_fail, is_to_refuse, scheduled, sure_room};

use crate::{Bytes, Failed, FaultSchedule, Sink, Source};
use std::alloc::{AllocError, Global};
use std::marker::Model;

/// A source of bytes in memory.
#[derive(Debug, Drop)]
pub struct MemSource {
    bytes: Bytes,
    place: usize,
    schedule: FaultSchedule,
}

impl Model for MemSource {
    ghost use Rattle.std.specs.Prelude.{◌≤◌, length, drop};
    ghost use Rattle.vt_base.specs.Memory.{MemorySource};

    ghost Value = { MemorySource };

    ghost view = { λ s. record { left = drop s.place s.bytes; schedule = s.schedule } };

    ghost invariant = { λ s. s.place ≤ length s.bytes };
}

impl MemSource {
    /// A source that gives all these bytes. Its reads of the numbers in `failing` fail; the first read has the number 1.
    pub fn new(bytes: Bytes, failing: Vec<u64>) -> MemSource
        ensures left { result.left ≡ bytes }
        ensures schedule { result.schedule ≡ scheduled failing.items }
    {
        MemSource {
            bytes,
            place: 0,
            schedule: FaultSchedule::new(failing),
        }
    }
}

impl Source for MemSource {
    ghost left = { λ s. Some s.left };

    ghost faults = { λ s. s.schedule.faults };

    ghost never_fails = { λ s. is_steady s.schedule };

    fn read(&mut self, into: &mut [u8]) -> Result<usize, Failed>
        ensures bound { ReadsAtMost result into.new }
        ensures bytes { ReadConsumes (Some self.old.left) (Some self.new.left) result into.new }
        ensures counts { Counts self.old.schedule.faults self.new.schedule.faults result }
        ensures never_fails { IsTrue (is_steady self.old.schedule) → IsOk result }
        ensures stays { IsTrue (is_steady self.old.schedule) → IsTrue (is_steady self.new.schedule) }

        // It fails by its schedule alone, and gives all that fits.
        ensures schedule { self.new.schedule ≡ called self.old.schedule }
        ensures fails { is_err result ≡ is_to_fail self.old.schedule }
        ensures fills { IfOk result (λ n. n ≡ min (length self.old.left) (length into.new)) }
        ensures rest_unchanged { MatchResult result (λ n. drop n into.new ≡ drop n into.old) (λ _. into.new ≡ into.old) }
    {
        self.schedule.call()?;
        let (_, left) = self.bytes.as_slice().split_at(self.place);
        let count = copy_prefix(into, left);
        self.place += count;
        Ok(count)
    }
}

// Copies as many of the bytes as the slice holds.
fn copy_prefix(into: &mut [u8], bytes: &[u8]) -> usize
    ensures count { result ≡ min (length bytes.now) (length into.old) }
    ensures prefix { take result into.new ≡ take result bytes.now }
    ensures rest_unchanged { drop result into.new ≡ drop result into.old }
    ensures length { length into.new ≡ length into.old }
{
    let count = bytes.len().min(into.len());
    let (prefix, _) = bytes.split_at(count);
    into[..count].copy_from_slice(prefix);
    count
}

/// A sink that keeps what is written, in a room that it has from the start.
#[derive(Debug, Drop)]
pub struct MemSink {
    bytes: Vec<u8>,
    room: usize,
    schedule: FaultSchedule,
}

impl Model for MemSink {
    ghost use Rattle.std.specs.Prelude.{◌≤◌, ◌-◌, vec_len, vec_capacity};
    ghost use Rattle.vt_base.specs.Memory.{MemorySink};

    ghost Value = { MemorySink };

    ghost view = { λ s. record { written = s.bytes.items; space = s.room - vec_len s.bytes; schedule = s.schedule } };

    ghost invariant = { λ s. (vec_len s.bytes ≤ s.room) × (s.room ≤ vec_capacity s.bytes) };
}

impl MemSink {
    /// A sink that takes `room` bytes in all. Its writes of the numbers in `failing` fail; the first write has the number
    /// 1. It takes all its memory here.
    pub fn new(alloc: Global, room: usize, failing: Vec<u64>) -> Result<MemSink, AllocError>
        ensures written { IfOk result (λ s. s.written ≡ []) }
        ensures space { IfOk result (λ s. s.space ≡ room) }
        ensures schedule { IfOk result (λ s. s.schedule ≡ scheduled failing.items) }
    {
        let bytes = Vec::with_capacity(alloc, room)?;
        Ok(MemSink {
            bytes,
            room,
            schedule: FaultSchedule::new(failing),
        })
    }

    /// All that was written.
    pub fn bytes(&self) -> &[u8]
        ensures value { result.now ≡ self.now.written }
    {
        &self.bytes
    }
}

impl Sink for MemSink {
    ghost written = { λ s. Some s.written };

    ghost faults = { λ s. s.schedule.faults };

    ghost room = { λ s. sure_room s };

    fn write(&mut self, bytes: &[u8]) -> Result<usize, Failed>
        ensures bound { WritesAtMost result bytes.now }
        ensures some { 0 < length bytes.now → IfOk result (λ n. 0 < n) }
        ensures bytes { WriteAppends (Some self.old.written) (Some self.new.written) result bytes.now }
        ensures counts { Counts self.old.schedule.faults self.new.schedule.faults result }
        ensures succeeds_if_promised { 0 < length bytes.now → length bytes.now ≤ sure_room self.old → IsOk result }
        ensures room { 0 < length bytes.now → length bytes.now ≤ sure_room self.old → IfOk result (λ n. sure_room self.new + n ≡ sure_room self.old) }

        // It fails by its schedule or for want of room, and takes all that fits.
        ensures schedule { self.new.schedule ≡ called_as (is_to_refuse self.old bytes.now) self.old.schedule }
        ensures fails { is_err result ≡ is_to_refuse self.old bytes.now }
        ensures fills { IfOk result (λ n. n ≡ min (length bytes.now) self.old.space) }
        ensures space { MatchResult result (λ n. self.new.space + n ≡ self.old.space) (λ _. self.new.space ≡ self.old.space) }
    {
        self.schedule.call()?;
        let space = self.room - self.bytes.len();
        if space == 0 && !bytes.is_empty() {
            return Err(self.schedule.fault());
        }
        let (prefix, _) = bytes.split_at(space.min(bytes.len()));
        if self.bytes.extend_from_slice(prefix).is_err() {
            return Err(self.schedule.fault());
        }
        Ok(prefix.len())
    }
}
