//! The parts of formulas, work on lists in halves, and kernels by parts.
//!
//! - `parts N; CLAUSES` reports the parts of a formula.
//! - `parts-without N; CLAUSES; VARIABLES` reports the parts of the formula without the literals on these.
//! - `units N` counts the parts of a unit clause for each of N variables, and `chain N` those of the
//!   clauses of two neighbouring ones, each four times.
//! - `halves N; NUMBERS` adds to each number its index, with N workers.
//! - `meet N; NUMBERS` does it with a gate that holds each half until the other one has entered, and reports
//!   how often each half entered and whether it met the other one.
//! - `sides N; NUMBERS` does it with a gate that holds half 1 until the first number was worked on, and
//!   reports whether it was.
//! - `kernel N; CLAUSES` reports the positions of the matching kernel of a formula as one worker finds it, and
//!   whether 2, 3, 8 and 64 workers find the same.
//! - `workers N; CLAUSES` reports it as two workers find it, with the gate that holds each half.
//! - `general N C; CLAUSES` reports what one worker finds of the general kernel of a formula by at most C
//!   learned clauses for each part: the kept positions and the literals that are set, or `unfinished`, then
//!   each round with its steps; and whether 2, 3 and 8 workers find the same.
//! - `general-workers N C; CLAUSES` reports it as two workers find it, with the gate that holds each half.
//! - `alone N C; CLAUSES; POSITIONS` reports what is found so in the part at these positions, in a formula of its
//!   own, and whether the same is found in the whole formula.
//! - `alone-drawn N C` compares the two for each part of N drawn formulas.
//! - `matching N; CLAUSES; POSITIONS` reports the matching kernel of the part at these positions, found in a formula
//!   of its own: the kept positions, own lines as position:variable, rows as variable:own:escape:rank, and
//!   whether the same is found in the whole formula.
//! - `matching-end N` reports it of the last six clauses after a unit clause for each of N variables.
//! - `matching-drawn N` compares the two for each part, and for each third position, of N drawn formulas.
//! - `decide N C; CLAUSES; POSITIONS` reports whether the clauses at these positions have a model, as found by at
//!   most C learned clauses: its literals, a refutation, or a round that stopped.
//! - `squares N C` reports of parts of four clauses over two of N variables each, where N + 1 is a prime, whose
//!   numbers are scattered, how much is kept by how many rounds and steps, whether two workers find the same,
//!   and compares one part of each 20 as `alone` does.
//! - `fours N` counts the kept clauses of parts of one variable each: four unit clauses, which are kept, or
//!   one, which is not, in turn; reports whether 2, 3, 8 and 64 workers keep the same; and as `workers` does
//!   how often each half of 1, 2 and 64 workers entered the gate. `pairs N` reports it of two unit clauses in place of
//!   four.
//! - `one N` reports it of a chain over all variables, `two N` of two chains, each over every second variable, and
//!   `beside N` of a chain over the first half of the variables beside a unit clause for each other one.
//! - `chains` and `values` put refutations and models to the test that are handed in (`src/tested.rt`).
//! - `groups N; CLAUSES` reports the parts of a formula over 40 variables in at most N groups.
use crate::alone::{tell_alone, tell_drawn};
use crate::command::Command;
use crate::deciding::tell_decision;
use crate::halves::tell_halves;
use crate::lists::tell_parts;
use crate::tested::tell_tested;
use crate::workers::{tell_built, tell_met, tell_same, tell_squares};
use std::alloc::Global;
use std::test::Fail;
use std::thread::Threads;

/// Reports what a command asks for.
pub(crate) fn tell<R: Threads + Sync>(
    rt: &R,
    alloc: Global,
    c: &Command<'_>,
    out: &mut String,
) -> Result<(), Fail> {
    match c.word {
        "parts" | "parts-without" | "groups" | "units" | "chain" => tell_parts(alloc, c, out),
        "halves" | "meet" | "sides" => tell_halves(rt, alloc, c, out),
        "kernel" | "general" => tell_same(rt, alloc, c, out),
        "workers" | "general-workers" => tell_met(rt, alloc, c, 2, out),
        "alone" | "matching" | "matching-end" => tell_alone(alloc, c, out),
        "alone-drawn" | "matching-drawn" => tell_drawn(alloc, c, out),
        "decide" => tell_decision(alloc, c, out),
        "chains" | "values" => tell_tested(alloc, c, out),
        "squares" => tell_squares(rt, alloc, c, out),
        "fours" | "pairs" | "one" | "two" | "beside" => tell_built(rt, alloc, c, out),
        _ => Ok(()),
    }
}
