// A source and a sink in memory. They fail at given calls.
ghost use Rattle.std.specs.Prelude.{◌≡◌, ◌↔◌, ◌<◌, ◌≤◌, [], ◌++◌, length, take, drop, Some, IsTrue, IfOk, OnErr, IsErr, Contains, vec_len};
ghost use Rattle.std.specs.Vec.{vec_capacity};
ghost use Rattle.std.specs.Io.KnownBytes.{Appends, Consumes, IsAtEnd, Keeps};
ghost use Rattle.ex_io.specs.Ends.{counted, Rose};
ghost use Rattle.ex_io.specs.Memory.{Supply, ReadFails, read_len, after_read, after_failed_read, Store, WriteFails, write_len, after_write, after_failed_write};

use crate::ends::{Failed, Sink, Source};
use crate::faults::Faults;
use std::alloc::{AllocError, Global};
use std::marker::Model;

// The calls that fail, and the number of calls so far.
#[derive(Drop)]
struct Script {
    fails: Vec<u32>,
    calls: u64,
}

impl Script {
    fn new(fails: Vec<u32>) -> Script
        ensures { result ≡ record { fails = fails; calls = 0 } }
    {
        Script { fails, calls: 0 }
    }

    // Counts a call and returns whether it fails. The count stops at its greatest value, which no list contains.
    fn fails_now(&mut self) -> bool
        ensures counted { self.new ≡ record self.old { calls = counted self.old.calls } }
        ensures listed { IsTrue result ↔ Contains self.old.fails.items (counted self.old.calls) }
    {
        self.calls = self.calls.saturating_add(1);
        let call = self.calls;
        self.fails.iter().any(|listed| u64::from(*listed) == call)
    }
}

/// A source in memory. One read returns at most `piece` bytes. The listed reads fail.
#[derive(Drop)]
pub struct MemSource {
    bytes: Vec<u8>,
    taken: usize,
    piece: usize,
    script: Script,
    faults: Faults,
}

impl Model for MemSource {
    ghost Value = { Supply };

    ghost view = { λ s. record {
      left = drop s.taken s.bytes.items;
      piece = s.piece;
      fails = s.script.fails.items;
      calls = s.script.calls;
      faults = s.faults;
    } };

    ghost invariant = { λ s. (s.taken ≤ vec_len s.bytes) × (1 ≤ s.piece) };
}

impl MemSource {
    /// Returns a source of `bytes`. One read returns at most `piece` bytes, at least 1. `fails` lists the reads that
    /// fail, counted from 1.
    pub fn new(bytes: Vec<u8>, piece: usize, fails: Vec<u32>) -> MemSource
        requires { 1 ≤ piece }
        ensures { result ≡ record {
          left = bytes.items;
          piece = piece;
          fails = fails.items;
          calls = 0;
          faults = 0;
        } }
    {
        MemSource {
            bytes,
            taken: 0,
            piece,
            script: Script::new(fails),
            faults: Faults::new(),
        }
    }

    /// Returns the number of failed reads.
    pub fn error_count(&self) -> u64
        ensures { result ≡ self.now.faults }
    {
        self.faults.count()
    }
}

impl Source for MemSource {
    ghost left = { λ s. Some s.left };

    ghost faults = { λ s. s.faults };

    fn read(&mut self, buf: &mut [u8]) -> Result<usize, Failed>
        requires { 0 < length buf.old }
        ensures fails { IsErr result ↔ ReadFails self.old }
        ensures later { self.old.faults ≤ self.new.faults }

        ensures count { IfOk result (λ n. n ≡ read_len self.old (length buf.old)) }
        ensures end { IfOk result (λ n. (n ≡ 0) ↔ (self.old.left ≡ [])) }
        ensures bytes { IfOk result (λ n. buf.new ≡ take n self.old.left ++ drop n buf.old) }
        ensures moved { IfOk result (λ n. self.new ≡ after_read self.old n) }

        ensures failed { OnErr result (self.new ≡ after_failed_read self.old) }
        ensures untouched { OnErr result (buf.new ≡ buf.old) }
    {
        if self.script.fails_now() {
            return Err(self.faults.rise());
        }
        let left = &self.bytes[self.taken..];
        let count = self.piece.min(buf.len()).min(left.len());
        copy_front(buf, left, count);
        self.taken += count;
        Ok(count)
    }
}

/// A sink in memory of `room` bytes. One write takes at most `piece` bytes. The listed writes fail, and so does a write
/// to a full sink.
#[derive(Drop)]
pub struct MemSink {
    bytes: Vec<u8>,
    room: usize,
    piece: usize,
    script: Script,
    faults: Faults,
}

impl Model for MemSink {
    ghost Value = { Store };

    ghost view = { λ s. record {
      written = s.bytes.items;
      room = s.room;
      piece = s.piece;
      fails = s.script.fails.items;
      calls = s.script.calls;
      faults = s.faults;
    } };

    // No write allocates, because the capacity is reserved.
    ghost invariant = { λ s. (vec_len s.bytes ≤ s.room) × (s.room ≤ vec_capacity s.bytes) × (1 ≤ s.piece) };
}

impl MemSink {
    /// Returns an empty sink with a reserved capacity of `room` bytes. One write takes at most `piece` bytes, at least
    /// 1. `fails` lists the writes that fail, counted from 1.
    ///
    /// # Errors
    ///
    /// [`AllocError`] if the allocation of the capacity fails.
    pub fn new(
        alloc: Global,
        room: usize,
        piece: usize,
        fails: Vec<u32>,
    ) -> Result<MemSink, AllocError>
        requires { 1 ≤ piece }
        ensures { IfOk result (λ sink. sink ≡ record {
          written = [];
          room = room;
          piece = piece;
          fails = fails.items;
          calls = 0;
          faults = 0;
        }) }
    {
        Ok(MemSink {
            bytes: Vec::with_capacity(alloc, room)?,
            room,
            piece,
            script: Script::new(fails),
            faults: Faults::new(),
        })
    }

    /// Returns the bytes written so far.
    pub fn bytes(&self) -> &[u8]
        ensures { result.now ≡ self.now.written }
    {
        &self.bytes
    }

    /// Returns the number of failed writes.
    pub fn error_count(&self) -> u64
        ensures { result ≡ self.now.faults }
    {
        self.faults.count()
    }
}

impl Sink for MemSink {
    ghost written = { λ s. Some s.written };

    ghost faults = { λ s. s.faults };

    fn write(&mut self, bytes: &[u8]) -> Result<usize, Failed>
        ensures fails { IsErr result ↔ WriteFails self.old bytes.now }
        ensures later { self.old.faults ≤ self.new.faults }

        ensures count { IfOk result (λ n. n ≡ write_len self.old (length bytes.now)) }
        ensures some { 0 < length bytes.now → IfOk result (λ n. 0 < n) }
        ensures taken { IfOk result (λ n. self.new ≡ after_write self.old (take n bytes.now)) }

        ensures failed { OnErr result (self.new ≡ after_failed_write self.old) }
    {
        let left = self.room - self.bytes.len();
        let is_full = left == 0 && !bytes.is_empty();
        if self.script.fails_now() || is_full {
            return Err(self.faults.rise());
        }
        let count = self.piece.min(bytes.len()).min(left);
        self.bytes.extend_from_slice(&bytes[..count]).unwrap();
        Ok(count)
    }
}

// Copies the first `count` bytes of `from` to the start of `to`.
fn copy_front(to: &mut [u8], from: &[u8], count: usize)
    requires { (count ≤ length to.old) × (count ≤ length from.now) }
    ensures { to.new ≡ take count from.now ++ drop count to.old }
{
    to[..count].copy_from_slice(&from[..count]);
}
