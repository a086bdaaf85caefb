//! What the shelf over files and the sink over streams return for a line.
use crate::interruptions::Interrupting;
use crate::parts::number_of;
use crate::shelves::put_calls;
use crate::sinks::{put_file, put_room};
use lk_outside::FileShelf;
use std::alloc::{AllocError, Global};
use std::rt::Files;

/// Writes what is returned for a line.
pub(crate) fn tell<R: Files>(
    rt: &R,
    alloc: Global,
    line: &str,
    out: &mut String,
) -> Result<(), AllocError> {
    let (word, rest) = line.split_once(" ").unwrap_or((line, ""));
    let (number, more) = rest.split_once(" ").unwrap_or((rest, ""));
    let times = number_of(number);
    match word {
        "again" => put_files(&Interrupting::new(rt, times), alloc, more, out),
        "room" => put_room(alloc, times, more, out),
        _ => put_files(rt, alloc, line, out),
    }
}

/// Writes what is returned for a line about files.
fn put_files<R: Files>(
    rt: &R,
    alloc: Global,
    line: &str,
    out: &mut String,
) -> Result<(), AllocError> {
    let (word, rest) = line.split_once(" ").unwrap_or((line, ""));
    match word {
        "shelf" => put_calls(alloc, &mut FileShelf::new(rt, alloc), rest, out),
        _ => put_file(rt, word, rest, out),
    }
}
