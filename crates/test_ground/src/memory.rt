//! Shelves and sinks in memory.
ghost use Rattle.std.specs.Prelude.{IsTrue, IfOk, is_some};

use crate::parts::{Parts, number_of, put_bytes};
use crate::sinks::put_piece;
use lk_model::{List, OutOfMemory};
use lk_outside::{Bytes, MemoryShelf, MemorySink, Name, Shelf};
use std::alloc::{AllocError, Global};
use std::test::Fail;

/// `shelf CHUNK | FAILS | FILES | CALLS`: what a shelf returns for the calls, each a name to start or `read`.
pub(crate) fn put_shelf(alloc: Global, parts: Parts, out: &mut String) -> Result<(), Fail> {
    let chunk = number_of(parts.first).max(1) as usize;
    let fails = fails_of(alloc, parts.second)?;
    let files = files_of(alloc, parts.third)?;
    let mut shelf = MemoryShelf::new(alloc, files, chunk, fails);
    put_calls(&mut shelf, parts.fourth, out)?;
    Ok(())
}

/// The numbers of the calls that fail.
fn fails_of(alloc: Global, written: &str) -> Result<List<u64>, OutOfMemory> {
    let mut fails = List::new(alloc);
    for word in written.split_whitespace() {
        fails.push(u64::from(number_of(word)))?;
    }
    Ok(fails)
}

/// The texts that a piece has, each after its name, with commas between them.
fn files_of(alloc: Global, written: &str) -> Result<List<(Name, Bytes)>, OutOfMemory> {
    let mut files = List::new(alloc);
    for file in written.split(", ") {
        files.push(file_of(alloc, file)?)?;
    }
    Ok(files)
}

/// A text after its name.
fn file_of(alloc: Global, written: &str) -> Result<(Name, Bytes), OutOfMemory> {
    let (name, text) = written.split_once(" ").unwrap_or((written, ""));
    let name = Name::of(alloc, name)?;
    let bytes = Bytes::of(alloc, text.as_bytes())?;
    Ok((name, bytes))
}

fn put_calls(shelf: &mut MemoryShelf, calls: &str, out: &mut String) -> Result<(), AllocError> {
    let mut started = false;
    let mut piece = *b"....";
    for call in calls.split_whitespace() {
        started = put_call(shelf, started, call, &mut piece, out)?;
    }
    Ok(())
}

/// Reads into the piece, or starts the text of a name, and writes what is returned, and the piece that was read;
/// whether a text is started then.
fn put_call(
    shelf: &mut MemoryShelf,
    started: bool,
    call: &str,
    piece: &mut [u8; 4],
    out: &mut String,
) -> Result<bool, AllocError>
    requires { IsTrue started → IsTrue (is_some shelf.old.unread) }
    ensures { IfOk result (λ s. IsTrue s → IsTrue (is_some shelf.new.unread)) }
{
    if call != "read" {
        let answer = shelf.start(call);
        write!(out, " {answer:?}")?;
        return Ok(answer.is_ok());
    }
    if started {
        let count = shelf.read(piece);
        write!(out, " {count:?}")?;
        put_bytes(piece.as_slice(), out)?;
    }
    Ok(started)
}

/// `sink ROOM | CHUNK | FAILS | PIECES`: what a sink returns for the pieces, and what it has taken then.
pub(crate) fn put_sink(alloc: Global, parts: Parts, out: &mut String) -> Result<(), Fail> {
    let room = number_of(parts.first) as usize;
    let chunk = number_of(parts.second).max(1) as usize;
    let mut sink = MemorySink::new(alloc, room, chunk, fails_of(alloc, parts.third)?)?;
    for piece in parts.fourth.split_whitespace() {
        put_piece(&mut sink, piece.as_bytes(), out)?;
        put_bytes(sink.bytes(), out)?;
    }
    Ok(())
}
