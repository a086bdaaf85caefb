//! Models.
use crate::kinds::put_stop;
use crate::spelled::bytes_of;
use lk_model::{Lit, ReadStop};
use model_text::{ModelReader, read_model};
use partial_assign::Partial;
use std::alloc::{AllocError, Global};

/// Reads a text in pieces of `size` bytes, or whole for the size 0.
pub(crate) fn read_values(
    alloc: Global,
    n: u32,
    text: &[u8],
    size: usize,
) -> Result<Partial, ReadStop> {
    let n = n.min(1_000_000);
    if size == 0 {
        return read_model(alloc, text, n);
    }
    let mut reader = ModelReader::new(alloc, n)?;
    for piece in text.chunks(size.max(1)) {
        reader.feed(piece)?;
    }
    reader.finish()
}

/// Writes the literals that are true, each after a blank, or where the reading stops.
pub(crate) fn put_values(
    read: Result<Partial, ReadStop>,
    out: &mut String,
) -> Result<(), AllocError> {
    match read {
        Ok(values) => put_literals(&values, out),
        Err(stop) => {
            out.push_str(" stops at ")?;
            put_stop(stop, out)
        }
    }
}

fn put_literals(values: &Partial, out: &mut String) -> Result<(), AllocError> {
    for i in 0..values.vars() {
        if let Some(value) = values.value(i + 1) {
            write!(out, " {}", Lit::from_var(i + 1, value).get())?;
        }
    }
    Ok(())
}

/// The number at the front of a line, and the rest of the line.
pub(crate) fn numbered(line: &str) -> (u32, &str) {
    let (n, rest) = line.split_once(" ").unwrap_or((line, ""));
    (n.parse().unwrap_or(0), rest)
}

/// Writes what is read of a text that goes on and on.
pub(crate) fn tell_endless(alloc: Global, line: &str, out: &mut String) -> Result<(), AllocError> {
    let (n, texts) = numbered(line);
    let (text, more) = texts.split_once("|").unwrap_or((texts, ""));
    let text = bytes_of(alloc, text)?;
    let more = bytes_of(alloc, more)?;
    match ModelReader::new(alloc, n.min(1_000_000)) {
        Ok(mut reader) => {
            let times = feed_on(&mut reader, text.as_slice(), more.as_slice());
            put_values(reader.finish(), out)?;
            write!(out, "\n= {times} more were taken")
        }
        Err(_) => out.push_str(" out of memory"),
    }
}

/// Feeds a text, and then more of it again and again, up to the first piece that is refused. Returns how
/// often more was taken.
fn feed_on(reader: &mut ModelReader, text: &[u8], more: &[u8]) -> u32 {
    if reader.feed(text).is_err() {
        return 0;
    }
    for times in 0..1_000 {
        if reader.feed(more).is_err() {
            return times;
        }
    }
    1_000
}
