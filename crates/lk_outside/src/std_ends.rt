//! The files and streams of the system as shelves and sinks.
//!
//! What a shelf or sink tells has none of their bytes. Beside it `file` and `stream` say that the bytes that came are
//! the next ones of the file, and that those that went are the first ones of the piece, for every library whose
//! contracts tell the bytes. The kit's own tells none of a real file; the code is the same.
ghost use Rattle.std.specs.Prelude.{◌≡◌, ◌≢◌, ◌↔◌, ℕ, ◌<◌, ◌≤◌, length, IsTrue, IsErr, IsErrOf, IfOk, OnOk, false};
ghost use Rattle.std.specs.Prelude.{IfSome, None, Some, Err, is_some};
ghost use Rattle.std.specs.Io.KnownBytes.{ReadConsumes, WriteAppends};
ghost use Rattle.std.specs.Result.{is_err};
ghost use Rattle.lk_outside.specs.Causes.{HasCause, TellsTheSame};
ghost use Rattle.lk_outside.specs.Reads.{ReadTakes};
ghost use Rattle.lk_outside.specs.Calls.{faults_after};

use crate::retries::{read_retrying, write_retrying};
use crate::shelf::{Failed, Shelf, StartStop};
use crate::sink::Sink;
use crate::tally::Tally;
use crate::texts::Name;
use std::alloc::Global;
use std::fs;
use std::io::{Read, Write};
use std::rt::Files;

/// The files of the system, by their paths. It tells nothing of their bytes.
#[derive(Drop)]
pub struct FileShelf<'a, R: Files> {
    rt: &'a R,
    alloc: Global,
    file: Option<R::File>,
    current: Option<Name>,
    tally: Tally,
}

impl<'a, R: Files> FileShelf<'a, R> {
    /// The files of that runtime, of which none is open. Names are copied into that memory.
    pub fn new(rt: &'a R, alloc: Global) -> Self
        ensures started { ⟦<FileShelf<'a, R> as Shelf>⟧.started result ≡ false }
        ensures current { ⟦<FileShelf<'a, R> as Shelf>⟧.current result ≡ None }
        ensures ailing { ⟦<FileShelf<'a, R> as Shelf>⟧.ailing result ≡ false }
        ensures faults { ⟦<FileShelf<'a, R> as Shelf>⟧.faults result ≡ 0 }
    {
        FileShelf {
            rt,
            alloc,
            file: None,
            current: None,
            tally: Tally::new(),
        }
    }
}

impl<'a, R: Files> Shelf for FileShelf<'a, R> {
    ghost use Rattle.std.specs.Prelude.{is_some, None};

    ghost told = { λ s name. None };

    ghost unread = { λ s. None };

    ghost started = { λ s. is_some s.file };

    ghost current = { λ s. s.current };

    ghost ailing = { λ s. s.tally.ailing };

    ghost faults = { λ s. s.tally.faults };

    /// Fails where the file does not open. Exactly then one more fault is counted.
    fn start(&mut self, name: &str) -> Result<(), StartStop>
        ensures exact { result ≢ Err StartStop.OutOfMemory →
            self.new.tally.faults ≡ faults_after (is_err result) self.old.tally.faults }
        ensures told { TellsTheSame
            (⟦<FileShelf<'a, R> as Shelf>⟧.told self.old) (⟦<FileShelf<'a, R> as Shelf>⟧.told self.new) }
        ensures ok { OnOk result (IsTrue (is_some self.new.file) ×
            (⟦<FileShelf<'a, R> as Shelf>⟧.unread self.new ≡ ⟦<FileShelf<'a, R> as Shelf>⟧.told self.old name.now)) }
        ensures failed { IsErrOf result StartStop.Failed → is_some self.new.file ≡ false }
        ensures memory { IsErrOf result StartStop.OutOfMemory → self.new ≡ self.old }
        ensures current { result ≢ Err StartStop.OutOfMemory →
            self.new.current ≡ Some name.now }
        ensures ailing { result ≢ Err StartStop.OutOfMemory →
            (IsTrue self.new.tally.ailing ↔ IsErrOf result StartStop.Failed) }
        ensures cause { HasCause self.old.tally.faults self.new.tally.faults
            (IsErrOf result StartStop.Failed) }
    {
        let current = Name::of(self.alloc, name)?;
        self.current = Some(current);
        match fs::open(self.rt, name) {
            Ok(file) => {
                self.file = Some(file);
                self.tally.note(false);
                Ok(())
            }
            Err(_) => {
                self.file = None;
                self.tally.note(true);
                Err(StartStop::Failed)
            }
        }
    }

    /// Fails where the system's read does. Exactly then one more fault is counted. A read that a
    /// signal interrupted is made again, up to 2^64 - 1 times.
    fn read(&mut self, piece: &mut [u8]) -> Result<usize, Failed>
        requires started { IsTrue (is_some self.old.file) }
        requires room { 0 < length piece.old }
        ensures exact { self.new.tally.faults ≡
            faults_after (is_err result) self.old.tally.faults }
        ensures told { TellsTheSame
            (⟦<FileShelf<'a, R> as Shelf>⟧.told self.old) (⟦<FileShelf<'a, R> as Shelf>⟧.told self.new) }
        ensures bound { IfOk result (λ k. k ≤ length piece.new) }
        ensures bytes { IfOk result (λ k. ReadTakes
            (⟦<FileShelf<'a, R> as Shelf>⟧.unread self.old)
            (⟦<FileShelf<'a, R> as Shelf>⟧.unread self.new) k piece.new) }
        ensures file { IfSome self.old.file (λ f. IfSome self.new.file (λ g. ReadConsumes
            (⟦<R::File as Read>⟧.remaining f) (⟦<R::File as Read>⟧.remaining g) result piece.new)) }
        ensures started { OnOk result (IsTrue (is_some self.new.file)) }
        ensures current { self.new.current ≡ self.old.current }
        ensures cause { HasCause self.old.tally.faults self.new.tally.faults (IsErr result) }
        ensures ailing { IsTrue self.new.tally.ailing ↔ IsErr result }
    {
        // A read asks that a file is open, so there is one.
        let Some(file) = &mut self.file else {
            return Ok(0)
        };
        match read_retrying(file, piece) {
            Ok(count) => {
                self.tally.note(false);
                Ok(count)
            }
            Err(_) => {
                self.tally.note(true);
                Err(Failed)
            }
        }
    }
}

/// A stream of the system. It tells nothing of its bytes.
#[derive(Drop)]
pub struct StdSink<W> {
    stream: W,
    tally: Tally,
}

impl<W: Write> StdSink<W> {
    /// A sink into that stream, into which nothing is written yet.
    pub fn new(stream: W) -> Self
        ensures stream { result.stream ≡ stream }
        ensures faults { ⟦<StdSink<W> as Sink>⟧.faults result ≡ 0 }
    {
        StdSink {
            stream,
            tally: Tally::new(),
        }
    }
}

impl<W: Write> Sink for StdSink<W> {
    ghost use Rattle.std.specs.Prelude.{None};

    ghost written = { λ s. None };

    ghost faults = { λ s. s.tally.faults };

    /// Fails where the stream's write does, or takes nothing. Exactly then one more fault is
    /// counted. A write that a signal interrupted is made again, up to 2^64 - 1 times.
    fn write(&mut self, piece: &[u8]) -> Result<usize, Failed>
        requires { 0 < length piece.now }
        ensures exact { self.new.tally.faults ≡
            faults_after (is_err result) self.old.tally.faults }
        ensures count { IfOk result (λ k. (0 < k) × (k ≤ length piece.now)) }
        ensures stream { WriteAppends (W.contents self.old.stream) (W.contents self.new.stream) result piece.now }
        ensures cause { HasCause self.old.tally.faults self.new.tally.faults (IsErr result) }
    {
        match write_retrying(&mut self.stream, piece) {
            Ok(count) if 0 < count => {
                self.tally.note(false);
                Ok(count)
            }
            _ => {
                self.tally.note(true);
                Err(Failed)
            }
        }
    }
}
