//! What a shelf over files returns for calls.
ghost use Rattle.std.specs.Prelude.{ℕ, ◌<◌, length, IsTrue, IfOk, OnOk};

use crate::sums::Summary;
use lk_outside::{Failed, Shelf};
use std::alloc::{AllocError, Global};

/// `shelf CALLS`: asks for the calls, with commas between them, and writes what is returned for each.
pub(crate) fn put_calls<S: Shelf>(
    alloc: Global,
    shelf: &mut S,
    calls: &str,
    out: &mut String,
) -> Result<(), AllocError> {
    let mut started = false;
    for call in calls.split(", ") {
        started = put_call(alloc, shelf, started, call, out)?;
        out.push_str(";")?;
    }
    Ok(())
}

/// Asks for a call, and writes what is returned; whether a text is started then. Nothing is read
/// where none is.
fn put_call<S: Shelf>(
    alloc: Global,
    shelf: &mut S,
    started: bool,
    call: &str,
    out: &mut String,
) -> Result<bool, AllocError>
    requires { IsTrue started → IsTrue (S.started shelf.old) }
    ensures { IfOk result (λ s. IsTrue s → IsTrue (S.started shelf.new)) }
{
    let (word, rest) = call.split_once(" ").unwrap_or((call, ""));
    if word == "start" {
        let answer = shelf.start(rest);
        write!(out, " {answer:?}")?;
        return Ok(answer.is_ok());
    }
    if !started {
        out.push_str(" nothing is started")?;
        return Ok(false);
    }
    let mut piece = vec![in alloc; 0u8; size_of(rest)]?;
    if word == "all" {
        put_all(shelf, piece.as_mut_slice(), out)
    } else {
        put_read(shelf, piece.as_mut_slice(), out)
    }
}

/// How many bytes a call asks for at a time: one at least.
fn size_of(written: &str) -> usize
    ensures { 0 < result }
{
    let size: u32 = written.parse().unwrap_or(1);
    size.max(1) as usize
}

/// Reads once, and writes what is returned, with the bytes; whether the text is started still.
fn put_read<S: Shelf>(shelf: &mut S, piece: &mut [u8], out: &mut String) -> Result<bool, AllocError>
    requires started { IsTrue (S.started shelf.old) }
    requires room { 0 < length piece.old }
    ensures { IfOk result (λ s. IsTrue s → IsTrue (S.started shelf.new)) }
{
    let answer = shelf.read(piece);
    write!(out, " {answer:?}")?;
    if let Ok(count) = answer {
        write!(out, " {}", piece[..count].escape_ascii())?;
    }
    Ok(answer.is_ok())
}

/// Reads to the end, and writes what was there; whether the text is started still.
fn put_all<S: Shelf>(shelf: &mut S, piece: &mut [u8], out: &mut String) -> Result<bool, AllocError>
    requires started { IsTrue (S.started shelf.old) }
    requires room { 0 < length piece.old }
    ensures { IfOk result (λ s. IsTrue s → IsTrue (S.started shelf.new)) }
{
    let mut text = Summary::new();
    let end = read_all(shelf, piece, &mut text);
    match end {
        Ok(()) => text.put(out)?,
        Err(_) => write!(out, " {end:?}")?,
    }
    Ok(end.is_ok())
}

/// Reads to the end.
fn read_all<S: Shelf>(shelf: &mut S, piece: &mut [u8], text: &mut Summary) -> Result<(), Failed>
    requires started { IsTrue (S.started shelf.old) }
    requires room { 0 < length piece.old }
    ensures { OnOk result (IsTrue (S.started shelf.new)) }
{
    for _ in 0..u64::MAX {
        let count = shelf.read(piece)?;
        if count == 0 {
            break;
        }
        text.add(&piece[..count]);
    }
    Ok(())
}
