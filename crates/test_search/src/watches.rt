//! Moves on propagators. What the cases return can be worked out by hand, and that of drawn moves is found by
//! `bench/moves.py`, which scans all clauses.
//!
//! A line is `case | NAME | VARS | CLAUSES | PART | BLOCKED | MOVES`, with commas between clauses, semicolons between
//! moves (`words`), and all positions where no part stands.
use crate::starts::start_part;
use crate::texts::{number_of, part_of};
use crate::words::play;
use lk_model::Formula;
use lk_samples::formula_of_text;
use std::alloc::Global;
use std::test::Fail;

/// Plays the moves of `PART | BLOCKED | MOVES` over a formula.
fn play_over(alloc: Global, f: &Formula, text: &str, out: &mut String) -> Result<(), Fail> {
    let (part, text) = part_of(text);
    let (blocked, moves) = part_of(text);
    let mut p = start_part(alloc, f, part, blocked)?;
    play(alloc, &mut p, f.vars(), f.len(), moves, out)
}

/// Writes the name of a case, and what its moves return.
fn tell_case(alloc: Global, text: &str, out: &mut String) -> Result<(), Fail> {
    let (name, text) = part_of(text);
    let (vars, text) = part_of(text);
    let (clauses, text) = part_of(text);
    writeln!(out, "== {}", name.trim())?;
    let f = formula_of_text(alloc, number_of(vars), clauses)?;
    play_over(alloc, &f, text, out)
}

/// Writes what a line asks for.
pub(crate) fn tell(alloc: Global, line: &str, out: &mut String) -> Result<(), Fail> {
    let (kind, text) = part_of(line);
    match kind.trim() {
        "case" => tell_case(alloc, text, out),
        _ => Err(Fail::from("no such line")),
    }
}
