//! Solves formulas, looks whether each answer is right, and reports what is determined of it. The expected lines
//! were made from the definitions by a program in another language.
//!
//! - `solve N C; CLAUSES` reports what one worker finds of a formula by at most C learned clauses for each part: a
//!   model, or in which part of the formula the chains of its round lie, the parts counted from 1; whether it is
//!   right; and whether 2 and 3 workers find an answer of this kind, in this part, that is right.
//! - `told N C; CLAUSES` reports all of an answer that is the only one: the literals of the model, or each step; and
//!   whether 2 and 3 workers find the same.
//! - `budgets N LEAST; CLAUSES` solves a formula with each budget from 1 on, by one worker and by two, until the
//!   answer is finished: what it is then, whether each answer was right, whether that took more than 3^N - 1 learned
//!   clauses, and whether it was unfinished with each budget below LEAST, the least number of learned clauses of a
//!   refutation.
//! - `gate N C W; CLAUSES` solves it by W workers with a gate that holds a half each time it enters, until the other
//!   half has entered as often: what is found, how often each half entered, and how often it met the other one.
//! - `drawn N M; COUNT` solves COUNT drawn formulas of N variables and at most M clauses: how many have a model, and
//!   whether all answers are right, also with a small budget, and those of a search through all assignments.
use crate::answers::{tell_budgets, tell_drawn};
use crate::command::Command;
use crate::workers::{tell_met, tell_same};
use std::alloc::Global;
use std::test::Fail;
use std::thread::Threads;

/// Reports what a command asks for.
pub(crate) fn tell<R: Threads + Sync>(
    rt: &R,
    alloc: Global,
    c: &Command<'_>,
    out: &mut String,
) -> Result<(), Fail> {
    match c.word {
        "solve" | "told" => tell_same(rt, alloc, c, out),
        "budgets" => tell_budgets(rt, alloc, c, "judged", out),
        "gate" => tell_met(rt, alloc, c, c.third, out),
        "drawn" => tell_drawn(rt, alloc, c, "judged", out),
        _ => Ok(()),
    }
}
