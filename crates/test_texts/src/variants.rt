//! What is said of many texts that come from one.
use crate::kinds::{Kind, told_of};
use crate::spelled::{bytes_of, parts_of, variant};
use std::alloc::{AllocError, Global};

/// How answers to beginnings of a text are written.
#[derive(Clone, Copy)]
pub(crate) enum Style {
    /// Each by itself.
    Each,
    /// Equal ones in a row once, with their number.
    Runs,
    /// Equal ones in a row once, in a line that says from how many bytes on.
    Lines,
}

/// Writes what is said of each beginning of the text, from no byte to all but one.
pub(crate) fn put_cuts(
    alloc: Global,
    kind: Kind,
    style: Style,
    base: &str,
    out: &mut String,
) -> Result<(), AllocError> {
    let bytes = bytes_of(alloc, base)?;
    let mut last = String::new(alloc);
    let mut from = 0usize;
    for i in 0..bytes.len() {
        let told = told_of(alloc, kind, &bytes.as_slice()[..i])?;
        if told.as_str() != last.as_str() {
            put_run(style, last.as_str(), from, i, out)?;
            last = told;
            from = i;
        }
    }
    put_run(style, last.as_str(), from, bytes.len(), out)
}

/// Writes what is said of the beginnings of at least `from` and fewer than `to` bytes, if there are any.
fn put_run(
    style: Style,
    told: &str,
    from: usize,
    to: usize,
    out: &mut String,
) -> Result<(), AllocError> {
    if from >= to {
        return Ok(());
    }
    match style {
        Style::Lines => writeln!(out, "= from {from} bytes on stops at {told}"),
        Style::Runs => {
            put_short(told, "", out)?;
            write!(out, "x{}", to - from)
        }
        Style::Each => {
            for _ in from..to {
                put_short(told, ",", out)?;
            }
            Ok(())
        }
    }
}

/// Writes in short what is said of a text: of a stop the number of its line alone.
fn put_short(told: &str, end: &str, out: &mut String) -> Result<(), AllocError> {
    match told.strip_prefix("line ") {
        Some(line) => write!(out, " {line}"),
        None => write!(out, " {told}{end}"),
    }
}

/// Writes what is said of the text in which each line in turn stands `times` times, or, with no number, is exchanged
/// with the next one.
pub(crate) fn put_variants(
    alloc: Global,
    kind: Kind,
    base: &str,
    times: Option<usize>,
    out: &mut String,
) -> Result<(), AllocError> {
    let parts = parts_of(alloc, base)?;
    let end = if let Kind::Answer(_) = kind { "," } else { "" };
    let last = usize::from(times.is_none());
    for place in 0..parts.len().saturating_sub(last) {
        let bytes = variant(alloc, parts.as_slice(), place, times)?;
        let told = told_of(alloc, kind, bytes.as_slice())?;
        put_short(told.as_str(), end, out)?;
    }
    Ok(())
}
