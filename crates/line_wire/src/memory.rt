//! A wire in memory. It fails at given calls and records its reads.
ghost use Rattle.std.specs.Prelude.{◌≡◌, ◌↔◌, ◌<◌, ◌≤◌, ℕ, List, [], ◌++◌, length, take, drop, ⊤, IfOk, OnErr, IsErr, vec_len};
ghost use Rattle.std.specs.Vec.{vec_capacity};
ghost use Rattle.ex_io.specs.Memory.{ReadFails, WriteFails, after_failed_read, after_failed_write, after_read, after_write, read_len, write_len};
ghost use Rattle.line_wire.specs.Memory.{IsTaped, Tape, noted};

use crate::wire::Wire;
use ex_io::{Failed, MemSink, MemSource, Sink, Source};
use std::alloc::{AllocError, Global};
use std::marker::Model;

/// A wire in memory. At each of its first reads, it records the number of octets written until then.
#[derive(Drop)]
pub struct MemWire {
    given: Vec<u8>,
    source: MemSource,
    sink: MemSink,
    room: usize,
    notes: Vec<usize>,
}

impl Model for MemWire {
    ghost Value = { Tape };

    ghost view = { λ w. record {
      given = w.given.items;
      source = w.source;
      sink = w.sink;
      room = w.room;
      notes = w.notes.items;
    } };

    ghost invariant = { λ w. w.room ≤ vec_capacity w.notes };
}

impl MemWire {
    /// Returns a wire with this input, in pieces of at most `piece` octets, and this output. The reads in `fails`,
    /// counted from 1, fail. It records the first `room` reads.
    ///
    /// # Errors
    ///
    /// [`AllocError`] if an allocation fails.
    pub fn new(
        alloc: Global,
        bytes: &[u8],
        piece: usize,
        fails: Vec<u32>,
        sink: MemSink,
        room: usize,
    ) -> Result<MemWire, AllocError>
        requires { 1 ≤ piece }
        ensures { IfOk result (λ w. w ≡ record {
          given = bytes.now;
          source = record { left = bytes.now; piece = piece; fails = fails.items; calls = 0; faults = 0 };
          sink = sink;
          room = room;
          notes = [];
        }) }
    {
        let notes = Vec::with_capacity(alloc, room)?;
        let mut given = Vec::new(alloc);
        given.extend_from_slice(bytes)?;
        let mut left = Vec::new(alloc);
        left.extend_from_slice(bytes)?;
        Ok(MemWire {
            given,
            source: MemSource::new(left, piece, fails),
            sink,
            room,
            notes,
        })
    }

    /// Returns the octets written so far.
    pub fn bytes(&self) -> &[u8]
        ensures { result.now ≡ self.now.sink.written }
    {
        self.sink.bytes()
    }

    /// Returns the number of octets written before each of the first reads.
    pub fn notes(&self) -> &[usize]
        ensures { result.now ≡ self.now.notes }
    {
        &self.notes
    }
}

impl Wire for MemWire {
    ghost stands = { IsTaped };

    ghost relies = { λ _ _. ⊤ };

    ghost ended = { λ w. w.source.left ≡ [] };

    ghost read_faults = { λ w. w.source.faults };

    ghost write_faults = { λ w. w.sink.faults };

    fn read(&mut self, buf: &mut [u8]) -> Result<usize, Failed>
        requires room { 0 < length buf.old }
        ensures fails { IsErr result ↔ ReadFails self.old.source }
        ensures count { IfOk result (λ n. n ≡ read_len self.old.source (length buf.old)) }
        ensures bytes { IfOk result (λ n. buf.new ≡ take n self.old.source.left ++ drop n buf.old) }
        ensures moved { IfOk result (λ n. self.new
            ≡ record self.old { source = after_read self.old.source n; notes = noted self.old }) }
        ensures heard { IfOk result (λ n. (heard said : List ℕ) → IsTaped self.old heard said
            → IsTaped self.new (heard ++ take n buf.new) said) }
        ensures end { IfOk result (λ n. n ≡ 0 → self.new.source.left ≡ []) }
        ensures failed { OnErr result (self.new
            ≡ record self.old { source = after_failed_read self.old.source; notes = noted self.old }) }
        ensures untouched { OnErr result (buf.new ≡ buf.old) }
    {
        if self.notes.len() < self.room {
            self.notes.push_reserved(self.sink.bytes().len());
        }
        self.source.read(buf)
    }

    fn write(&mut self, bytes: &[u8]) -> Result<usize, Failed>
        ensures fails { IsErr result ↔ WriteFails self.old.sink bytes.now }
        ensures count { IfOk result (λ n. n ≡ write_len self.old.sink (length bytes.now)) }
        ensures some { 0 < length bytes.now → IfOk result (λ n. 0 < n) }
        ensures taken { IfOk result (λ n. self.new
            ≡ record self.old { sink = after_write self.old.sink (take n bytes.now) }) }
        ensures failed { OnErr result (self.new ≡ record self.old { sink = after_failed_write self.old.sink }) }
    {
        self.sink.write(bytes)
    }
}
