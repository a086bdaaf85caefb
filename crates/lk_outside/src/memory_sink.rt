//! A sink into memory, of which writes fail where a test wants it.
ghost use Rattle.std.specs.Prelude.{◌≡◌, ◌↔◌, ℕ, ◌<◌, ◌≤◌, length, IsTrue, IsErr, IfOk, OnErr, Some};
ghost use Rattle.std.specs.Io.KnownBytes.{WriteAppends};
ghost use Rattle.lk_outside.specs.Causes.{HasCause};
ghost use Rattle.lk_outside.specs.SinkState.{empty_sink, write_fails, write_count, after_write};

use crate::shelf::Failed;
use crate::sink::Sink;
use crate::tally::Tally;
use lk_model::{List, OutOfMemory};
use std::alloc::Global;
use std::marker::Model;

/// Takes bytes into memory, at most `chunk` at a time and `room` in all.
///
/// Writes are numbered from 1. A write fails where its number is among those set to fail, or where
/// no room is left; no other write does.
#[derive(Drop)]
pub struct MemorySink {
    held: Vec<u8>,
    room: usize,
    chunk: usize,
    fail: List<u64>,
    tally: Tally,
}

impl Model for MemorySink {
    ghost use Rattle.std.specs.Prelude.{ℕ, ◌<◌, ◌≤◌, vec_len, vec_capacity};
    ghost use Rattle.lk_outside.specs.SinkState.{SinkState};

    ghost Value = { SinkState };

    ghost view = { λ m. record {
      written = m.held.items;
      room = m.room;
      chunk = m.chunk;
      fail = m.fail;
      writes = m.tally.calls;
      faults = m.tally.faults;
    } };

    ghost invariant = { λ m.
        (0 < m.chunk) × (vec_len m.held ≤ m.room) × (m.room ≤ vec_capacity m.held) };
}

impl MemorySink {
    /// A sink that took nothing yet, with memory for all its room. `fail` has the numbers of the
    /// writes that are to fail. `OutOfMemory` if there is no memory for the room.
    pub fn new(
        alloc: Global,
        room: usize,
        chunk: usize,
        fail: List<u64>,
    ) -> Result<Self, OutOfMemory>
        requires { 0 < chunk }
        ensures { IfOk result (λ sink. sink ≡ empty_sink room chunk fail) }
    {
        Ok(MemorySink {
            held: Vec::with_capacity(alloc, room)?,
            room,
            chunk,
            fail,
            tally: Tally::new(),
        })
    }

    /// All bytes that were taken.
    pub fn bytes(&self) -> &[u8]
        ensures { result.now ≡ self.now.written }
    {
        self.held.as_slice()
    }
}

impl Sink for MemorySink {
    ghost written = { λ s. Some s.written };

    ghost faults = { λ s. s.faults };

    /// Fails where it is set to fail, or where no room is left; then nothing was taken.
    fn write(&mut self, piece: &[u8]) -> Result<usize, Failed>
        requires { 0 < length piece.now }
        ensures fails { IsErr result ↔ IsTrue (write_fails self.old) }
        ensures exact { IfOk result (λ k. k ≡ write_count self.old (length piece.now)) }
        ensures state { self.new ≡ after_write self.old piece.now }
        ensures count { IfOk result (λ k. (0 < k) × (k ≤ length piece.now)) }
        ensures bytes { WriteAppends
            (Some self.old.written) (Some self.new.written) result piece.now }
        ensures kept { OnErr result (self.new.written ≡ self.old.written) }
        ensures cause { HasCause self.old.faults self.new.faults (IsErr result) }
    {
        let free = self.room - self.held.len();
        let refused = free == 0 || self.tally.next_fails(self.fail.as_slice());
        self.tally.note(refused);
        if refused {
            return Err(Failed);
        }
        let count = self.chunk.min(piece.len()).min(free);
        // There is memory for all its room, so this never fails.
        self.held.extend_from_slice(&piece[..count]).unwrap();
        Ok(count)
    }
}
