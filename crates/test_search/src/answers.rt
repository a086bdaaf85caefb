//! Answers, and whether an answer stands.
use crate::asking::{Asked, Way, answer};
use crate::left::left_of;
use cdcl_core::Outcome;
use lk_model::{Decided, Formula, Lit, Step};
use lk_samples::put_literals;
use partial_assign::Partial;
use plain_judge::{clause_at, lie_in, stand};
use refutation_log::Log;
use std::alloc::{AllocError, Global};
use std::test::Fail;

/// Whether a literal is true.
fn is_true(values: &Partial, l: Lit) -> bool {
    let v = l.var();
    v <= values.vars() && values.value(v) == Some(l.positive())
}

/// Whether a clause has a literal that is true.
fn is_satisfied(values: &Partial, clause: &[Lit]) -> bool {
    for l in clause {
        if is_true(values, *l) {
            return true;
        }
    }
    false
}

/// Whether values satisfy the clauses at positions.
fn are_satisfied(values: &Partial, f: &Formula, positions: &[u32]) -> bool {
    for p in positions {
        if !is_satisfied(values, clause_at(f, *p)) {
            return false;
        }
    }
    true
}

/// Whether no blocked variable is set.
fn sets_no_blocked(values: &Partial, blocked: &[u32]) -> bool {
    for v in blocked {
        if *v > 0 && *v <= values.vars() && values.value(*v).is_some() {
            return false;
        }
    }
    true
}

/// Whether values satisfy each clause that is left, and set no blocked variable.
fn is_model(alloc: Global, asked: &Asked, values: &Partial) -> Result<bool, Fail> {
    let left = left_of(alloc, asked)?;
    let are_satisfied = are_satisfied(values, &left.formula, left.positions.as_slice());
    Ok(are_satisfied && sets_no_blocked(values, asked.blocked))
}

/// Whether steps stand, and their chains name no position but those that are left.
fn stands(
    alloc: Global,
    asked: &Asked,
    next: u64,
    steps: &[Step],
    is_refutation: bool,
) -> Result<bool, Fail> {
    let left = left_of(alloc, asked)?;
    if !lie_in(&left.formula, left.positions.as_slice(), steps) {
        return Ok(false);
    }
    Ok(stand(alloc, &left.formula, next, steps, is_refutation)?)
}

fn put_value(v: u32, value: Option<bool>, out: &mut String) -> Result<(), AllocError> {
    match value {
        Some(true) => write!(out, " {v}"),
        Some(false) => write!(out, " -{v}"),
        None => Ok(()),
    }
}

/// Writes the true literals.
fn put_values(values: &Partial, out: &mut String) -> Result<(), AllocError> {
    for v in 1..values.vars() + 1 {
        put_value(v, values.value(v), out)?;
    }
    out.push('\n')
}

fn put_step(step: &Step, out: &mut String) -> Result<(), AllocError> {
    write!(out, "{}:", step.number)?;
    put_literals(step.clause.as_slice(), out)?;
    out.push('\n')
}

/// Writes the clauses of steps, if there are few.
fn put_steps(steps: &[Step], out: &mut String) -> Result<(), AllocError> {
    if steps.len() > 9 {
        return Ok(());
    }
    for step in steps {
        put_step(step, out)?;
    }
    Ok(())
}

fn put_end(word: &str, count: usize, stands: bool, out: &mut String) -> Result<(), AllocError> {
    writeln!(out, "{word} {count} steps, {stands}")
}

/// Writes the steps of an answer, and whether they stand.
fn put_judged(
    alloc: Global,
    asked: &Asked,
    next: u64,
    steps: &[Step],
    is_refutation: bool,
    out: &mut String,
) -> Result<(), Fail> {
    let stands = stands(alloc, asked, next, steps, is_refutation)?;
    let word = if is_refutation {
        "refuted by"
    } else {
        "stopped after"
    };
    put_end(word, steps.len(), stands, out)?;
    Ok(put_steps(steps, out)?)
}

fn put_log(
    alloc: Global,
    asked: &Asked,
    next: u64,
    log: Log,
    is_refutation: bool,
    out: &mut String,
) -> Result<(), Fail> {
    let round = log.into_round()?;
    put_judged(
        alloc,
        asked,
        next,
        round.steps.as_slice(),
        is_refutation,
        out,
    )
}

fn put_model(alloc: Global, asked: &Asked, values: &Partial, out: &mut String) -> Result<(), Fail> {
    let is_model = is_model(alloc, asked, values)?;
    write!(out, "sat, {is_model}:")?;
    Ok(put_values(values, out)?)
}

/// Writes what was decided, and whether it stands.
pub(crate) fn put_decided(
    alloc: Global,
    asked: &Asked,
    next: u64,
    decided: Outcome,
    out: &mut String,
) -> Result<(), Fail> {
    match decided {
        Decided::Model(values) => put_model(alloc, asked, &values, out),
        Decided::Refuted(log) => put_log(alloc, asked, next, log, true, out),
        Decided::Stopped(log) => put_log(alloc, asked, next, log, false, out),
    }
}

/// Whether a refutation stands.
fn log_stands(alloc: Global, asked: &Asked, next: u64, log: Log) -> Result<bool, Fail> {
    let round = log.into_round()?;
    stands(alloc, asked, next, round.steps.as_slice(), true)
}

/// Whether there is a model, where the answer stands.
pub(crate) fn has_model(
    alloc: Global,
    asked: &Asked,
    way: Way,
    next: u64,
) -> Result<Option<bool>, Fail> {
    match answer(alloc, asked, way, next, 1_000_000)? {
        Decided::Model(values) => Ok(is_model(alloc, asked, &values)?.then_some(true)),
        Decided::Refuted(log) => Ok(log_stands(alloc, asked, next, log)?.then_some(false)),
        Decided::Stopped(_) => Ok(None),
    }
}
