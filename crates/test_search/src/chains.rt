//! Logs of chains over a part of a formula, and what is left of them; and resolvents. What is expected can be worked out by
//! hand.
//!
//! A line is one of
//!
//!     join | NAME | CLAUSE | LITERAL | OTHER
//!     log | NAME | VARS | CLAUSES | BLOCKED | PART | FIRST | CHAINS | NEXT
//!
//! `join` reports the literals of a clause in order, and those of its resolvent on a literal with another clause. `log`
//! logs chains, with semicolons between them, each as its first number and its turns, a turn as LITERAL/NUMBER; the
//! steps are numbered from FIRST on. It reports the clause that is found by the number of each step, and that none is
//! found after them, the last clause, the positions that are used, and each step; and where there is a NEXT the steps
//! of the log trimmed to it, and the positions that these use.
ghost use Rattle.std.specs.Prelude.{IfOk, IsSome, IsTrue};
ghost use Rattle.lk_model.specs.Held.VariableSets.{IsCrossed, premises_of};
ghost use Rattle.lk_model.specs.Chains.Chain.{chain_clause};

use crate::asked::{are_numbered, is_refutation, names_below};
use crate::clauses::{are_chains, chain_clause};
use crate::texts::{number_of, part_of};
use lk_model::{Crossed, Formula, Lit, OutOfMemory, Round, Step, Turn, makes_clause};
use lk_samples::{
    formula_of_text, literals_of_text, numbers_of_text, part_of_text, put_literals, put_steps,
    set_of,
};
use refutation_log::{Log, Work, axioms_of, resolve_into};
use std::alloc::{AllocError, Global};
use std::test::Fail;

fn put_line(lits: &[Lit], out: &mut String) -> Result<(), AllocError> {
    out.push('=')?;
    put_literals(lits, out)?;
    out.push('\n')
}

/// Writes the resolvent of a clause on a literal with another clause, if there is one.
fn put_resolvent(
    work: &mut Work,
    on: Option<&Lit>,
    other: &[Lit],
    out: &mut String,
) -> Result<(), OutOfMemory> {
    match on {
        Some(l) if work.as_slice().contains(l) && other.contains(&l.negated()) => {
            resolve_into(work, *l, other)?;
            Ok(put_line(work.as_slice(), out)?)
        }
        _ => Ok(out.push_str("= none\n")?),
    }
}

/// Writes a clause in order, and its resolvent.
fn put_joined(
    alloc: Global,
    clause: &[Lit],
    on: &[Lit],
    other: &[Lit],
    out: &mut String,
) -> Result<(), Fail> {
    if !makes_clause(1_000_000, clause) {
        return Err(Fail::from("no clause"));
    }
    let mut work = Work::of(alloc, clause)?;
    put_line(work.as_slice(), out)?;
    Ok(put_resolvent(&mut work, on.first(), other, out)?)
}

/// Writes the resolvent of `CLAUSE | LITERAL | OTHER`.
fn tell_join(alloc: Global, text: &str, out: &mut String) -> Result<(), Fail> {
    let (clause, text) = part_of(text);
    let (on, other) = part_of(text);
    let clause = literals_of_text(alloc, clause)?;
    let on = literals_of_text(alloc, on)?;
    let other = literals_of_text(alloc, other)?;
    put_joined(
        alloc,
        clause.as_slice(),
        on.as_slice(),
        other.as_slice(),
        out,
    )
}

/// Appends the turn of a literal and a number.
fn push_turn(turns: &mut Vec<Turn>, lit: &str, with: &str) -> Result<(), Fail> {
    match Lit::new(lit.parse().unwrap_or(0)) {
        Some(lit) => Ok(turns.push(Turn {
            lit,
            with: with.parse().unwrap_or(0),
        })?),
        None => Err(Fail::from("no literal")),
    }
}

/// The turns that a text has.
fn turns_of(alloc: Global, text: &str) -> Result<Vec<Turn>, Fail> {
    let mut turns = Vec::new(alloc);
    for word in text.split_whitespace() {
        let (lit, with) = word.split_once("/").unwrap_or((word, ""));
        push_turn(&mut turns, lit, with)?;
    }
    Ok(turns)
}

/// Whether the chain has a clause.
fn has_clause(
    alloc: Global,
    over: &Crossed,
    steps: &[Step],
    first: u64,
    turns: &[Turn],
) -> Result<bool, OutOfMemory>
    requires { IsCrossed over.now }
    ensures { IfOk result (λ b. IsTrue b → IsSome (chain_clause (premises_of over.now steps.now) first turns.now)) }
{
    let clause = chain_clause(alloc, over, steps, first, turns)?;
    Ok(clause.is_some())
}

/// Pushes a chain, which must have a clause, on a log that has a number for its step. The steps leave the log before
/// and are logged again.
fn push(alloc: Global, over: &Crossed, log: Log, first: u64, turns: &[Turn]) -> Result<Log, Fail>
    requires { IsCrossed over.now }
{
    let from = log.first();
    let next = from.saturating_add(log.len() as u64);
    if next == u64::MAX || u64::from(over.formula.len()) >= from {
        return Err(Fail::from("no number"));
    }
    let round = log.into_round()?;
    if !has_clause(alloc, over, round.steps.as_slice(), first, turns)? {
        return Err(Fail::from("no chain"));
    }
    let mut log = Log::from_round(alloc, from, round)?;
    if log.push_chain(over, first, turns)? != next {
        return Err(Fail::from("another number"));
    }
    Ok(log)
}

/// Pushes the chain that a text has.
fn push_text(alloc: Global, over: &Crossed, log: Log, text: &str) -> Result<Log, Fail>
    requires { IsCrossed over.now }
{
    let (first, turns) = text.split_once(" ").unwrap_or((text, ""));
    let turns = turns_of(alloc, turns)?;
    push(
        alloc,
        over,
        log,
        first.parse().unwrap_or(0),
        turns.as_slice(),
    )
}

/// The log of the chains that a text has.
fn log_of(alloc: Global, over: &Crossed, first: u64, chains: &str) -> Result<Log, Fail>
    requires { IsCrossed over.now }
{
    let mut log = Log::new(alloc, first);
    for chain in chains.split(";") {
        log = push_text(alloc, over, log, chain.trim())?;
    }
    Ok(log)
}

/// Trims a refutation.
fn trim(alloc: Global, log: Log, next: u64) -> Result<Option<Round>, OutOfMemory> {
    let first = log.first();
    let round = log.into_round()?;
    let steps = round.steps.as_slice();
    if !is_refutation(steps) || next > first || !names_below(next, first, steps) {
        return Ok(None);
    }
    let log = Log::from_round(alloc, first, round)?;
    Ok(Some(log.trim(next)?))
}

/// Writes the clause that is found by a number, or that there is none.
fn put_found(log: &Log, number: u64, out: &mut String) -> Result<(), AllocError> {
    if !log.has(number) {
        return writeln!(out, "= {number}: no step");
    }
    write!(out, "= {number}:")?;
    put_literals(log.clause(number), out)?;
    out.push('\n')
}

/// Writes the clauses that are found by the numbers of the steps and the one after them, and the last clause.
fn put_all(log: &Log, out: &mut String) -> Result<(), AllocError> {
    let mut number = log.first();
    for _ in 0..log.len() {
        put_found(log, number, out)?;
        number = number.saturating_add(1);
    }
    put_found(log, number, out)?;
    if log.len() == 0 {
        return Ok(());
    }
    out.push_str("= last")?;
    put_literals(log.last_clause(), out)?;
    out.push('\n')
}

fn put_used(used: &[u32], out: &mut String) -> Result<(), AllocError> {
    writeln!(out, "= used {used:?}")
}

/// Writes the positions that the steps of a log use.
fn put_log_used(over: &Crossed, log: &Log, out: &mut String) -> Result<(), OutOfMemory> {
    if u64::from(over.formula.len()) >= log.first() {
        return Ok(());
    }
    let used = log.used(over)?;
    Ok(put_used(used.as_slice(), out)?)
}

/// Writes the steps of a refutation, which are numbered from this number on, and the positions that they use.
fn put_round_used(
    alloc: Global,
    over: &Crossed,
    first: u64,
    round: &Round,
    out: &mut String,
) -> Result<(), OutOfMemory>
    requires { IsCrossed over.now }
{
    let steps = round.steps.as_slice();
    put_steps(steps, out)?;
    if !is_refutation(steps)
        || !are_numbered(first, steps)
        || first <= u64::from(over.formula.len())
        || !are_chains(alloc, over, steps)?
    {
        return Ok(out.push_str("= no refutation\n")?);
    }
    let used = axioms_of(alloc, over, round)?;
    Ok(put_used(used.as_slice(), out)?)
}

/// Writes what is left of a log that is trimmed to a next number.
fn put_trimmed(
    alloc: Global,
    over: &Crossed,
    log: Log,
    next: u64,
    out: &mut String,
) -> Result<(), OutOfMemory>
    requires { IsCrossed over.now }
{
    out.push_str("= trimmed\n")?;
    match trim(alloc, log, next)? {
        Some(round) => put_round_used(alloc, over, next, &round, out),
        None => Ok(out.push_str("= no refutation\n")?),
    }
}

/// Writes the steps of a log.
fn put_logged(over: &Crossed, log: Log, out: &mut String) -> Result<(), OutOfMemory> {
    put_all(&log, out)?;
    put_log_used(over, &log, out)?;
    let round = log.into_round()?;
    Ok(put_steps(round.steps.as_slice(), out)?)
}

/// Writes the log of `FIRST | CHAINS | NEXT`.
fn tell_over(alloc: Global, over: &Crossed, text: &str, out: &mut String) -> Result<(), Fail>
    requires { IsCrossed over.now }
{
    let (first, text) = part_of(text);
    let (chains, next) = part_of(text);
    let first = first.trim().parse().unwrap_or(0);
    put_logged(over, log_of(alloc, over, first, chains)?, out)?;
    match next.trim().parse() {
        Ok(next) => Ok(put_trimmed(alloc, over, log_of(alloc, over, first, chains)?, next, out)?),
        Err(_) => Ok(()),
    }
}

/// Writes the log of `BLOCKED | PART | FIRST | CHAINS | NEXT`.
fn tell_part(alloc: Global, f: &Formula, text: &str, out: &mut String) -> Result<(), Fail> {
    let (blocked, text) = part_of(text);
    let (part, text) = part_of(text);
    let blocked = numbers_of_text(alloc, blocked)?;
    let blocked = set_of(alloc, f.vars(), blocked.as_slice())?;
    let part = part_of_text(alloc, f, part)?;
    let over = Crossed {
        formula: f,
        part: part.as_slice(),
        blocked: &blocked,
    };
    tell_over(alloc, &over, text, out)
}

/// Writes the log of `VARS | CLAUSES | ..`.
fn tell_log(alloc: Global, text: &str, out: &mut String) -> Result<(), Fail> {
    let (vars, text) = part_of(text);
    let (clauses, text) = part_of(text);
    let f = formula_of_text(alloc, number_of(vars), clauses)?;
    tell_part(alloc, &f, text, out)
}

/// Writes what a line asks for.
pub(crate) fn tell(alloc: Global, line: &str, out: &mut String) -> Result<(), Fail> {
    let (kind, text) = part_of(line);
    let (name, text) = part_of(text);
    writeln!(out, "== {}", name.trim())?;
    match kind.trim() {
        "join" => tell_join(alloc, text, out),
        _ => tell_log(alloc, text, out),
    }
}
