//! What a sink returns for pieces, over streams and files.
ghost use Rattle.std.specs.Prelude.{ℕ, ◌<◌};

use crate::interruptions::Interrupted;
use crate::parts::{Parts, number_of};
use lk_outside::{Failed, Sink, StdSink};
use std::alloc::{AllocError, Global};
use std::fs;
use std::fs::OpenOptions;
use std::io::Write;
use std::rt::Files;
use std::test::Fail;

/// Writes a whole text.
pub(crate) fn print_all<S: Sink>(sink: &mut S, text: &[u8]) -> Result<(), Failed> {
    let mut rest = text;
    while !rest.is_empty() {
        let count = sink.write(rest)?;
        rest = &rest[count..];
    }
    Ok(())
}

/// Writes a piece, unless it is empty, and writes what is returned.
pub(crate) fn put_piece<S: Sink>(
    sink: &mut S,
    piece: &[u8],
    out: &mut String,
) -> Result<(), AllocError> {
    if piece.is_empty() {
        return Ok(());
    }
    let answer = sink.write(piece);
    write!(out, " {answer:?}")
}

/// Writes the pieces into a sink over that stream, and writes what is returned for each.
fn put_pieces<W: Write + Drop>(
    stream: W,
    pieces: &str,
    out: &mut String,
) -> Result<(), AllocError> {
    let mut sink = StdSink::new(stream);
    for piece in pieces.split_whitespace() {
        put_piece(&mut sink, piece.as_bytes(), out)?;
    }
    Ok(())
}

/// `stream ROOM | PIECES`: what a sink over ROOM bytes returns for the pieces.
pub(crate) fn put_stream(alloc: Global, parts: Parts, out: &mut String) -> Result<(), Fail> {
    let mut room = vec![in alloc; 0u8; number_of(parts.first) as usize]?;
    put_pieces(room.as_mut_slice(), parts.second, out)?;
    Ok(())
}

/// `sink NAME PIECES`: the file of that name is opened for writing. `reader NAME PIECES`: it is opened for reading
/// alone.
pub(crate) fn put_file<R: Files>(
    rt: &R,
    word: &str,
    rest: &str,
    out: &mut String,
) -> Result<(), AllocError> {
    let (name, pieces) = rest.split_once(" ").unwrap_or((rest, ""));
    let opened = if word == "sink" {
        OpenOptions::new().write(true).open(rt, name)
    } else {
        fs::open(rt, name)
    };
    match opened {
        Ok(file) => put_pieces(file, pieces, out),
        Err(_) => out.push_str(" does not open"),
    }
}

/// `room TIMES SIZE PIECES`: SIZE bytes of memory, whose writes are interrupted TIMES times.
pub(crate) fn put_room(
    alloc: Global,
    times: u32,
    rest: &str,
    out: &mut String,
) -> Result<(), AllocError> {
    let (size, pieces) = rest.split_once(" ").unwrap_or((rest, ""));
    let mut room = vec![in alloc; b'.'; number_of(size) as usize]?;
    let mut stream = Interrupted::new(room.as_mut_slice(), times);
    put_pieces(&mut stream, pieces, out)?;
    let calls = stream.calls;
    write!(out, ", {calls} calls: {}", room.as_slice().escape_ascii())
}
