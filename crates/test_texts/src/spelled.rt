//! Texts of many lines, each spelled in one.
use std::alloc::{AllocError, Global};

/// The byte that a letter after `\` stands for.
fn meant_by(letter: u8) -> u8 {
    match letter {
        b'n' => b'\n',
        b'r' => b'\r',
        b't' => b'\t',
        b'v' => 11,
        b's' => b' ',
        other => other,
    }
}

/// The bytes that a line spells.
pub(crate) fn bytes_of(alloc: Global, line: &str) -> Result<Vec<u8>, AllocError> {
    let mut bytes = Vec::new(alloc);
    let mut is_behind = false;
    for byte in line.as_bytes() {
        if *byte == b'\\' && !is_behind {
            is_behind = true;
        } else {
            bytes.push(if is_behind { meant_by(*byte) } else { *byte })?;
            is_behind = false;
        }
    }
    Ok(bytes)
}

/// The line in which NEW stands in the place of OLD, written `OLD|NEW`.
pub(crate) fn changed(alloc: Global, line: &str, change: &str) -> Result<String, AllocError> {
    let (old, new) = change.split_once("|").unwrap_or((change, ""));
    line.replace(alloc, old, new)
}

/// The lines that a line spells, each without its end.
pub(crate) fn parts_of<'a>(alloc: Global, line: &'a str) -> Result<Vec<&'a str>, AllocError> {
    let mut parts = Vec::new(alloc);
    for part in line.split("\\n") {
        if part != "" {
            parts.push(part)?;
        }
    }
    Ok(parts)
}

/// The bytes of these lines, of which the one at a place stands `times` times, or, with no number, is exchanged with
/// the next one.
pub(crate) fn variant(
    alloc: Global,
    parts: &[&str],
    place: usize,
    times: Option<usize>,
) -> Result<Vec<u8>, AllocError> {
    let mut text = String::new(alloc);
    for i in 0..parts.len() {
        let (from, count) = match times {
            Some(count) if i == place => (i, count),
            None if i == place => (place.saturating_add(1), 1),
            None if i == place.saturating_add(1) => (place, 1),
            _ => (i, 1),
        };
        for _ in 0..count {
            text.push_str(parts.get(from).copied().unwrap_or(""))?;
            text.push_str("\\n")?;
        }
    }
    bytes_of(alloc, text.as_str())
}
