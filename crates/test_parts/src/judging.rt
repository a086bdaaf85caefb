//! Whether answers are right, by a program that knows nothing of how they were found.
use crate::found::Search;
use crate::lines::{put_core, put_model, put_positions};
use lk_model::{Decided, Formula, Lit, MusResult, Step, Without};
use lk_samples::{has_part, put_steps};
use mus_core::Mus;
use par_parts::parts;
use part_formula::Decision;
use plain_judge::{clause_at, has_model, is_model, is_named, learns, lie_in, refutes};
use std::alloc::{AllocError, Global};
use std::test::Fail;

/// The number of the part, from 1 on, in which chains lie, and 0 if there is none.
fn part_of(alloc: Global, f: &Formula, steps: &[Step]) -> Result<usize, Fail> {
    let list = parts(alloc, f)?;
    let mut number = 0usize;
    for part in list.as_slice() {
        number = number.wrapping_add(1);
        if lie_in(f, part.as_slice(), steps) {
            return Ok(number);
        }
    }
    Ok(0)
}

/// Writes what is to be said of an answer: what it is, in which part the chains of its round lie, whether it is right.
pub(crate) fn put_judged(
    alloc: Global,
    s: &Search<'_>,
    solved: Decision,
    out: &mut String,
) -> Result<(), Fail> {
    match solved {
        Decided::Model(lits) => Ok(put_model_judged(s.formula, lits.as_slice(), out)?),
        Decided::Refuted(round) => put_round_judged(alloc, s, true, round.steps.as_slice(), out),
        Decided::Stopped(round) => put_round_judged(alloc, s, false, round.steps.as_slice(), out),
    }
}

fn put_model_judged(f: &Formula, lits: &[Lit], out: &mut String) -> Result<(), AllocError> {
    let right = is_model(f, lits);
    write!(out, "= model; right {right}")
}

/// How many steps with a literal a refutation may have: as many as clauses may be learned, and three for each literal
/// of the formula.
fn most_steps(f: &Formula, conflicts: u32) -> u32 {
    let mut most = conflicts;
    for p in 1..f.len() + 1 {
        let literals = u32::try_from(f.clause(p).len()).unwrap_or(u32::MAX);
        most = most.saturating_add(literals.saturating_mul(3));
    }
    most
}

fn put_round_judged(
    alloc: Global,
    s: &Search<'_>,
    is_refuted: bool,
    steps: &[Step],
    out: &mut String,
) -> Result<(), Fail> {
    let (f, most) = (s.formula, s.conflicts);
    let (word, right) = if is_refuted {
        ("refuted", refutes(alloc, f, most_steps(f, most), steps)?)
    } else {
        ("unfinished", learns(alloc, f, most, steps)?)
    };
    let part = part_of(alloc, f, steps)?;
    write!(out, "= {word} in part {part}; right {right}")?;
    Ok(())
}

/// The position of the first empty clause, and 0 if there is none.
pub(crate) fn first_empty(f: &Formula) -> u32 {
    for p in 1..f.len() + 1 {
        if f.clause(p).is_empty() {
            return p;
        }
    }
    0
}

/// Whether the clauses of a core have no model, by all assignments, and, where a clause is empty, it is the first such one.
fn is_unsatisfiable(alloc: Global, f: &Formula, core: &[u32]) -> Result<bool, Fail> {
    let empty = first_empty(f);
    if !has_part(f, core) || (empty > 0 && core != [empty].as_slice()) {
        return Ok(false);
    }
    let clauses = f.clauses_at(alloc, core)?;
    Ok(!has_model(&clauses))
}

/// Whether some chain of these steps names a position.
fn is_named_in(steps: &[Step], p: u32) -> bool {
    for step in steps {
        if is_named(step, u64::from(p)) {
            return true;
        }
    }
    false
}

/// Whether the chains of a round name the positions of a core and no others.
fn names_just(f: &Formula, r: &MusResult) -> bool {
    for p in 1..f.len() + 1 {
        if is_named_in(r.round.steps.as_slice(), p) != r.core.as_slice().contains(&p) {
            return false;
        }
    }
    true
}

/// Whether the literals rise on variables of the formula, and make each literal of the clause at their position false,
/// and satisfy each other clause of the core.
fn is_witness(f: &Formula, core: &[u32], without: &Without) -> bool {
    let mut low = 0;
    for l in without.lits.as_slice() {
        if l.var() <= low {
            return false;
        }
        low = l.var();
    }
    for p in core {
        let (clause, own) = (clause_at(f, *p), *p == without.pos);
        let mut hits = 0usize;
        for l in clause {
            let wanted = if own { l.negated() } else { *l };
            hits = hits.wrapping_add(usize::from(without.lits.as_slice().contains(&wanted)));
        }
        if hits < (if own { clause.len() } else { 1 }) {
            return false;
        }
    }
    low <= f.vars()
}

/// Whether there is a witness for each position of the core, in their order.
fn has_witnesses(f: &Formula, r: &MusResult) -> bool {
    let (core, withouts) = (r.core.as_slice(), r.without.as_slice());
    if core.len() != withouts.len() {
        return false;
    }
    for i in 0..core.len() {
        if withouts[i].pos != core[i] || !is_witness(f, core, &withouts[i]) {
            return false;
        }
    }
    true
}

/// Whether no clause is empty, and the texts are the clauses at some positions.
fn are_texts(f: &Formula, part: &[u32], texts: &Formula) -> bool {
    if !has_part(f, part) || first_empty(f) > 0 {
        return false;
    }
    if texts.vars() != f.vars() || texts.len() as usize != part.len() {
        return false;
    }
    for i in 0..part.len() {
        if clause_at(texts, i as u32 + 1) != clause_at(f, part[i]) {
            return false;
        }
    }
    true
}

/// Whether it is a minimally unsatisfiable core, with a refutation of as many learned clauses as are allowed.
fn is_core(alloc: Global, s: &Search<'_>, r: &MusResult) -> Result<bool, Fail> {
    let f = s.formula;
    if !has_witnesses(f, r) || !names_just(f, r) {
        return Ok(false);
    }
    Ok(
        is_unsatisfiable(alloc, f, r.core.as_slice())?
            && refutes(alloc, f, s.conflicts, r.round.steps.as_slice())?,
    )
}

/// Writes an answer in the way of a command, and whether it is right.
pub(crate) fn put_mus(
    alloc: Global,
    s: &Search<'_>,
    mus: Mus,
    out: &mut String,
) -> Result<(), Fail> {
    let put = put_answer(s.way, &mus, out);
    let right = is_right(alloc, s, &mus);
    drop(mus);
    let right = right?;
    put?;
    Ok(put_right(s.way, right, out)?)
}

/// Writes an answer in the way of a command.
fn put_answer(way: &str, mus: &Mus, out: &mut String) -> Result<(), AllocError> {
    match mus {
        Mus::Core(r) => put_core(way, r, out),
        Mus::Model(lits) if matches!(way, "find" | "told") => put_model(lits.as_slice(), out),
        Mus::Model(_) => out.push_str("= model"),
        Mus::Unfinished { part, round, .. } => {
            put_unfinished(way, part.as_slice(), round.steps.as_slice(), out)
        }
    }
}

fn put_unfinished(
    way: &str,
    part: &[u32],
    steps: &[Step],
    out: &mut String,
) -> Result<(), AllocError> {
    out.push_str("= unfinished")?;
    if !matches!(way, "find" | "told") {
        return Ok(());
    }
    out.push_str(" over")?;
    put_positions(part, out)?;
    out.push('\n')?;
    if way == "find" {
        return put_steps(steps, out);
    }
    Ok(())
}

/// Whether an answer is right.
fn is_right(alloc: Global, s: &Search<'_>, mus: &Mus) -> Result<bool, Fail> {
    match mus {
        Mus::Core(r) => is_core(alloc, s, r),
        Mus::Model(lits) => Ok(is_model(s.formula, lits.as_slice())),
        Mus::Unfinished { part, texts, round } => Ok(
            are_texts(s.formula, part.as_slice(), texts)
                && learns(alloc, texts, s.conflicts, round.steps.as_slice())?,
        ),
    }
}

/// Writes whether an answer is right, but not after a whole one.
fn put_right(way: &str, right: bool, out: &mut String) -> Result<(), AllocError> {
    match way {
        "find" => Ok(()),
        "told" => writeln!(out, "= right {right}"),
        _ => write!(out, "; right {right}"),
    }
}
