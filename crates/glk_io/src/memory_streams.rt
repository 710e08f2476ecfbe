// A source and a sink in memory, some of whose calls fail.
ghost use Rattle.std.specs.Prelude.{◌≡◌, ◌≤◌, ◌<◌, ◌↔◌, [], IsTrue, Some, false, min, take, length, IfOk, IsOk};
ghost use Rattle.std.specs.Io.{ReadsAtMost, WritesAtMost};
ghost use Rattle.std.specs.Io.KnownBytes.{ReadConsumes, WriteAppends};
ghost use Rattle.glk_io.specs.Streams.{HasCause};
ghost use Rattle.glk_io.specs.Memory.{is_listed, ReadsListed, TakesListed};

use super::streams::{Failed, Sink, Source};
use glk_base::OutOfMemory;
use std::alloc::Global;
use std::marker::Model;

/// Bytes in memory, some of whose reads fail. Contracts see the bytes that are left, the reads that
/// fail, and how many reads and faults there were.
#[derive(Drop)]
pub struct MemSource {
    bytes: Vec<u8>,
    at: usize,
    fails: Vec<u64>,
    calls: u64,
    faults: u64,
}

impl Model for MemSource {
    ghost use Rattle.std.specs.Prelude.{◌≡◌, ◌≤◌, [], drop, vec_len};
    ghost use Rattle.glk_io.specs.Memory.{SourceInMemory};

    ghost Value = { SourceInMemory };

    ghost view = { λ s. record {
      left = drop s.at s.bytes.items;
      fails = s.fails.items;
      calls = s.calls;
      faults = s.faults;
    } };

    // Without listed reads the count never rises.
    ghost invariant = { λ s. record {
      within : s.at ≤ vec_len s.bytes;
      faults : s.fails.items ≡ [] → s.faults ≡ 0;
    } };
}

impl MemSource {
    /// A source of these bytes, and the numbers of the reads that fail, from 0. It takes no memory.
    pub fn new(bytes: Vec<u8>, fails: Vec<u64>) -> MemSource
        ensures { result ≡ record { left = bytes.items; fails = fails.items; calls = 0; faults = 0 } }
    {
        MemSource {
            bytes,
            at: 0,
            fails,
            calls: 0,
            faults: 0,
        }
    }
}

// Whether the call is one of those that fail.
fn is_failing(fails: &[u64], call: u64) -> bool
    ensures { result ≡ is_listed fails.now call }
{
    fails.contains(&call)
}

// Copies as much of `from` as fits to the start of `to`, and answers how much.
fn copy_prefix(from: &[u8], to: &mut [u8]) -> usize
    ensures count { result ≡ min (length to.old) (length from.now) }
    ensures prefix { take result to.new ≡ take result from.now }
{
    let count = to.len().min(from.len());
    to[..count].copy_from_slice(&from[..count]);
    count
}

impl Source for MemSource {
    ghost use Rattle.glk_io.specs.Memory.{memory_source};

    ghost state = { λ s. memory_source s };

    fn faults(&self) -> u64
        ensures count { result ≡ self.now.faults }
        ensures unlisted { self.now.fails ≡ [] → result ≡ 0 }
    {
        self.faults
    }

    fn read(&mut self, buf: &mut [u8]) -> Result<usize, Failed>
        ensures bound { ReadsAtMost result buf.new }
        ensures bytes { ReadConsumes (Some self.old.left) (Some self.new.left) result buf.new }
        ensures cause { HasCause self.old.faults self.new.faults result }
        ensures listed { ReadsListed self.old self.new (length buf.old) result }
    {
        let call = self.calls;
        self.calls = call.saturating_add(1);
        if is_failing(&self.fails, call) {
            self.faults = self.faults.saturating_add(1);
            return Err(Failed);
        }
        let count = copy_prefix(&self.bytes[self.at..], buf);
        self.at += count;
        Ok(count)
    }
}

/// A sink in memory with room for a given number of bytes, some of whose writes fail. Contracts see the bytes
/// that it holds, its room, the writes that fail, and how many writes and faults there were.
#[derive(Drop)]
pub struct MemSink {
    bytes: Vec<u8>,
    room: usize,
    fails: Vec<u64>,
    calls: u64,
    faults: u64,
}

impl Model for MemSink {
    ghost use Rattle.std.specs.Prelude.{◌≤◌, vec_len, vec_capacity};
    ghost use Rattle.glk_io.specs.Memory.{SinkInMemory};

    ghost Value = { SinkInMemory };

    ghost view = { λ s. record {
      held = s.bytes.items;
      room = s.room;
      fails = s.fails.items;
      calls = s.calls;
      faults = s.faults;
    } };

    ghost invariant = { λ s. record {
      within : vec_len s.bytes ≤ s.room;
      taken : s.room ≤ vec_capacity s.bytes;
    } };
}

impl MemSink {
    /// An empty sink with room for `room` bytes, which are taken here, and the numbers of the writes
    /// that fail, from 0.
    pub fn new(alloc: Global, room: usize, fails: Vec<u64>) -> Result<MemSink, OutOfMemory>
        ensures { IfOk result (λ s. s ≡ record {
          held = [];
          room = room;
          fails = fails.items;
          calls = 0;
          faults = 0;
        }) }
    {
        let bytes = Vec::with_capacity(alloc, room)?;
        Ok(MemSink {
            bytes,
            room,
            fails,
            calls: 0,
            faults: 0,
        })
    }

    /// The bytes that it holds.
    pub fn bytes(&self) -> &[u8]
        ensures { result.now ≡ self.now.held }
    {
        self.bytes.as_slice()
    }
}

// Whether nothing fits of a piece that is not empty.
fn is_full(room: usize, piece: &[u8]) -> bool
    ensures { IsTrue result ↔ ((room ≡ 0) × (0 < length piece.now)) }
{
    room == 0 && !piece.is_empty()
}

impl Sink for MemSink {
    ghost use Rattle.glk_io.specs.Memory.{memory_sink};

    ghost state = { λ s. memory_sink s };

    fn faults(&self) -> u64 {
        self.faults
    }

    fn write(&mut self, piece: &[u8]) -> Result<usize, Failed>
        ensures bound { WritesAtMost result piece.now }
        ensures some { 0 < length piece.now → IfOk result (λ taken. 0 < taken) }
        ensures bytes { WriteAppends (Some self.old.held) (Some self.new.held) result piece.now }
        ensures cause { HasCause self.old.faults self.new.faults result }
        ensures listed { TakesListed self.old self.new piece.now result }
        // Where there is room it fails only where it is listed: it takes no memory.
        ensures room { is_listed self.old.fails self.old.calls ≡ false
            → length self.old.held < self.old.room → IsOk result }
    {
        let call = self.calls;
        self.calls = call.saturating_add(1);
        let room = self.room - self.bytes.len();
        if is_failing(&self.fails, call) || is_full(room, piece) {
            self.faults = self.faults.saturating_add(1);
            return Err(Failed);
        }
        let count = piece.len().min(room);
        // It fits in what `new` took.
        self.bytes.extend_from_slice(&piece[..count]).unwrap();
        Ok(count)
    }
}
