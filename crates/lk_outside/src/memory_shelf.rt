//! A shelf over texts in memory, of which calls fail where a test wants it.
ghost use Rattle.std.specs.Prelude.{◌≡◌, ◌≢◌, ◌↔◌, ◌<◌, ◌≤◌, length, IsTrue, IsErr, IsErrOf, IfOk, OnOk, Some, Err};
ghost use Rattle.std.specs.Prelude.{false, is_some};
ghost use Rattle.lk_outside.specs.Causes.{HasCause, TellsTheSame};
ghost use Rattle.lk_outside.specs.Reads.{ReadTakes};
ghost use Rattle.lk_outside.specs.ShelfState.{unread_shelf, bytes_under, start_fails, read_fails, after_start};
ghost use Rattle.lk_outside.specs.ShelfState.{read_count, after_read, piece_after};

use crate::files::{Place, place_of, read_on};
use crate::shelf::{Failed, Shelf, StartStop};
use crate::tally::Tally;
use crate::texts::{Bytes, Name};
use lk_model::List;
use std::alloc::Global;
use std::marker::Model;

/// Texts in memory, of which a read gives at most `chunk` bytes.
///
/// Where a name stands twice, its first entry counts. Calls of `start` and `read` are numbered
/// together from 1. A call fails where its number is among those set to fail, or where it starts
/// a name that no entry has; no other call does, but a start may run out of memory for the name.
#[derive(Drop)]
pub struct MemoryShelf {
    alloc: Global,
    files: List<(Name, Bytes)>,
    chunk: usize,
    fail: List<u64>,
    tally: Tally,
    place: Option<Place>,
    current: Option<Name>,
}

impl Model for MemoryShelf {
    ghost use Rattle.std.specs.Prelude.{ℕ, ◌<◌};
    ghost use Rattle.std.specs.Option.{option_map, ForSome};
    ghost use Rattle.lk_outside.specs.ShelfState.{ShelfState};
    ghost use Rattle.lk_outside.specs.Places.{IsIn, rest_from};

    ghost Value = { ShelfState };

    ghost view = { λ m. record {
      files = m.files;
      chunk = m.chunk;
      fail = m.fail;
      calls = m.tally.calls;
      unread = option_map (rest_from m.files) m.place;
      current = m.current;
      ailing = m.tally.ailing;
      faults = m.tally.faults;
    } };

    ghost invariant = { λ m. (0 < m.chunk) × ForSome m.place (IsIn m.files) };
}

impl MemoryShelf {
    /// A shelf of those entries, of which nothing was asked yet. `fail` has the numbers of the
    /// calls that are to fail.
    pub fn new(alloc: Global, files: List<(Name, Bytes)>, chunk: usize, fail: List<u64>) -> Self
        requires { 0 < chunk }
        ensures { result ≡ unread_shelf files chunk fail }
    {
        MemoryShelf {
            alloc,
            files,
            chunk,
            fail,
            tally: Tally::new(),
            place: None,
            current: None,
        }
    }
}

impl Shelf for MemoryShelf {
    ghost told = { λ s name. bytes_under s.files name };

    ghost unread = { λ s. s.unread };

    ghost started = { λ s. is_some s.unread };

    ghost current = { λ s. s.current };

    ghost ailing = { λ s. s.ailing };

    ghost faults = { λ s. s.faults };

    /// Fails where it is set to fail, or where no entry has the name; then nothing is started. Without
    /// memory for the name the shelf stays as it was, and the call has no number.
    fn start(&mut self, name: &str) -> Result<(), StartStop>
        ensures fails { result ≢ Err StartStop.OutOfMemory →
            (IsErrOf result StartStop.Failed ↔ IsTrue (start_fails self.old name.now)) }
        ensures state { result ≢ Err StartStop.OutOfMemory →
            self.new ≡ after_start self.old name.now }
        ensures told { TellsTheSame (bytes_under self.old.files) (bytes_under self.new.files) }
        ensures ok { OnOk result
            (IsTrue (is_some self.new.unread) ×
            (self.new.unread ≡ bytes_under self.old.files name.now)) }
        ensures failed { IsErrOf result StartStop.Failed → is_some self.new.unread ≡ false }
        ensures memory { IsErrOf result StartStop.OutOfMemory → self.new ≡ self.old }
        ensures current { result ≢ Err StartStop.OutOfMemory →
            self.new.current ≡ Some name.now }
        ensures ailing { result ≢ Err StartStop.OutOfMemory →
            (IsTrue self.new.ailing ↔ IsErrOf result StartStop.Failed) }
        ensures cause { HasCause self.old.faults self.new.faults (IsErrOf result StartStop.Failed) }
    {
        let current = Name::of(self.alloc, name)?;
        let found = place_of(self.files.as_slice(), name.as_bytes());
        let refused = self.tally.next_fails(self.fail.as_slice());
        self.current = Some(current);
        match found {
            Some(place) if !refused => {
                self.tally.note(false);
                self.place = Some(place);
                Ok(())
            }
            _ => {
                self.tally.note(true);
                self.place = None;
                Err(StartStop::Failed)
            }
        }
    }

    /// Fails where it is set to fail; then what is left, and the piece, stay as they were.
    fn read(&mut self, piece: &mut [u8]) -> Result<usize, Failed>
        requires started { IsTrue (is_some self.old.unread) }
        requires room { 0 < length piece.old }
        ensures fails { IsErr result ↔ IsTrue (read_fails self.old) }
        ensures count { IfOk result (λ k. k ≡ read_count self.old (length piece.old)) }
        ensures state { self.new ≡ after_read self.old (length piece.old) }
        ensures piece { piece.new ≡ piece_after self.old piece.old }
        ensures told { TellsTheSame (bytes_under self.old.files) (bytes_under self.new.files) }
        ensures bound { IfOk result (λ k. k ≤ length piece.new) }
        ensures bytes { IfOk result (λ k. ReadTakes self.old.unread self.new.unread k piece.new) }
        ensures started { OnOk result (IsTrue (is_some self.new.unread)) }
        ensures current { self.new.current ≡ self.old.current }
        ensures cause { HasCause self.old.faults self.new.faults (IsErr result) }
        ensures ailing { IsTrue self.new.ailing ↔ IsErr result }
    {
        let refused = self.tally.next_fails(self.fail.as_slice());
        self.tally.note(refused);
        if refused {
            return Err(Failed);
        }
        // A read asks that a text is started, so there is a place.
        let Some(mut place) = self.place else {
            return Ok(0)
        };
        let count = read_on(self.files.as_slice(), &mut place, self.chunk, piece);
        self.place = Some(place);
        Ok(count)
    }
}
