//! Finds minimally unsatisfiable cores of formulas, looks whether each answer is right, and reports what is
//! determined of it. The expected lines were made from the definitions by a program in another language.
//!
//! A formula has at most 12 variables. Each number C is a budget of learned clauses for each single decision; after
//! several of them there is an answer for each.
//!
//! - `find N C ..; CLAUSES` reports all of an answer that is the only one: the positions of the core, each step and the
//!   literals for each position; or the literals of the model; or the positions of what is unfinished and each step.
//! - `told N C ..; CLAUSES` does so without the steps, and `core N C ..; CLAUSES` without the literals too.
//! - `size N C ..; CLAUSES` reports a core by its number of clauses alone, and `kind N C ..; CLAUSES` any answer in a
//!   word.
//! - `budgets N LEAST; CLAUSES` goes through the budgets from 1 on until the answer is finished: what it is then, whether
//!   each answer was right, and whether it was unfinished with each budget below LEAST, the least number of learned
//!   clauses of a refutation.
//! - `orders N; CLAUSES` goes through all orders of the clauses of a core, and reports whether each answer is a core of
//!   all of them.
//! - `drawn N M; COUNT` goes through COUNT drawn formulas of N variables and at most M clauses: how many have a model,
//!   how many an empty clause, and whether each answer is right, also with a small budget, and a model just where there
//!   is one.
//!
//! After each answer but those of `find` stands whether it is right.
use crate::answers::{tell_budgets, tell_drawn, tell_each, tell_orders};
use crate::command::Command;
use plain_judge::MOST_VARS;
use std::alloc::Global;
use std::test::Fail;
use std::thread::Threads;

/// Reports what a command asks for.
pub(crate) fn tell<R: Threads + Sync>(
    rt: &R,
    alloc: Global,
    c: &Command<'_>,
    out: &mut String,
) -> Result<(), Fail> {
    if c.first > MOST_VARS {
        return Err(Fail::from("too many variables"));
    }
    match c.word {
        "find" | "told" | "core" | "size" | "kind" => tell_each(rt, alloc, c, out),
        "budgets" => tell_budgets(rt, alloc, c, "size", out),
        "orders" => tell_orders(rt, alloc, c, out),
        "drawn" => tell_drawn(rt, alloc, c, "kind", out),
        _ => Ok(()),
    }
}
