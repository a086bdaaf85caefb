//! The clauses of formulas of a pattern, as text.
use std::alloc::{AllocError, Global};

/// The variable of a pigeon in a hole, each counted from 0.
fn place(holes: u32, pigeon: u32, hole: u32) -> u32 {
    holes
        .saturating_mul(pigeon)
        .saturating_add(hole)
        .saturating_add(1)
}

/// A pigeon sits in a hole.
fn put_pigeon(holes: u32, pigeon: u32, clauses: &mut String) -> Result<(), AllocError> {
    let first = place(holes, pigeon, 0);
    let last = place(holes, pigeon, holes.saturating_sub(1));
    write!(clauses, "{first}..{last},")
}

/// Two pigeons do not sit in one hole.
fn put_pair(
    holes: u32,
    pigeon: u32,
    other: u32,
    hole: u32,
    clauses: &mut String,
) -> Result<(), AllocError> {
    let one = place(holes, other, hole);
    write!(clauses, "-{one} -{},", place(holes, pigeon, hole))
}

/// No two pigeons sit in one hole.
fn put_hole(holes: u32, hole: u32, clauses: &mut String) -> Result<(), AllocError> {
    for pigeon in 0..holes.saturating_add(1) {
        for other in 0..pigeon {
            put_pair(holes, pigeon, other, hole, clauses)?;
        }
    }
    Ok(())
}

/// One pigeon more than there are holes, of which there is at least one.
pub(crate) fn pigeons(alloc: Global, holes: u32) -> Result<String, AllocError> {
    let mut clauses = String::new(alloc);
    for pigeon in 0..holes.saturating_add(1) {
        put_pigeon(holes, pigeon, &mut clauses)?;
    }
    for hole in 0..holes {
        put_hole(holes, hole, &mut clauses)?;
    }
    clauses.pop();
    Ok(clauses)
}

/// A chain of implications: the first variable holds, each one implies the next, and the last does not hold.
pub(crate) fn implications(alloc: Global, length: u32) -> Result<String, AllocError> {
    let mut clauses = String::new(alloc);
    write!(clauses, "1, -1 2 * {}, -{length}", length.saturating_sub(1))?;
    Ok(clauses)
}
