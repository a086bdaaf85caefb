//! Moves on a propagator, as words. Each has a number, from the first free one on.
//!
//! | move | what it does, and what it returns |
//! |---|---|
//! | `propagate K..` | propagates: `quiet`, or which clause is false, but `one of these` where its number is given |
//! | `assign L` | propagates, and makes the literal true if that ends quiet and it is unset: whether it does |
//! | `behind L` | the same, with a clause added in between that is true already and so not looked at yet |
//! | `add L..` | adds a clause under the move's number: whether it may be held |
//! | `retract N` | takes back what came above a level: whether there is so high a level |
//! | `trail` | the true literals |
//! | `end` | how many literals are true, and the level of the last one |
//! | `level` | the present level |
//! | `told V..` | of each of the variables its value, its level and its reason |
//! | `why V` | the clause that forced a variable |
//! | `clash` | propagates: `quiet`, or the clause that is false |
//! | `settle` | propagates: the true literals by their variables, or `conflict` |
//! | `reasons` | of each variable that was forced its level and its reason |
ghost use Rattle.std.specs.Prelude.{◌≡◌, ◌<◌, ◌≤◌, ℕ, not, IsTrue};
ghost use Rattle.lk_model.specs.Lists.{among};
ghost use Rattle.watch_prop.specs.Propagation.{numbers_of};

use crate::moves::{add, assign, assign_behind, retract};
use lk_model::Lit;
use lk_samples::{literals_of_text, put_literals};
use std::alloc::{AllocError, Global};
use std::test::Fail;
use watch_prop::{Propagated, Propagator};

/// Writes whether something is so.
fn put(is_so: bool, out: &mut String) -> Result<(), AllocError> {
    writeln!(out, "{is_so}")
}

/// Writes literals as a line.
fn put_line(lits: &[Lit], out: &mut String) -> Result<(), AllocError> {
    put_literals(lits, out)?;
    out.push('\n')
}

/// Writes how many literals are true, and the level of the last one.
fn put_end(count: usize, level: u32, out: &mut String) -> Result<(), AllocError> {
    writeln!(out, " {count} at level {level}")
}

/// Writes the value, the level and the reason of a variable.
fn put_entry(
    v: u32,
    value: Option<bool>,
    level: Option<u32>,
    reason: Option<u64>,
    out: &mut String,
) -> Result<(), AllocError> {
    writeln!(out, " {v} {value:?} {level:?} {reason:?}")
}

/// Writes what is reported of a variable.
fn put_variable(p: &Propagator, vars: u32, v: u32, out: &mut String) -> Result<(), AllocError>
    requires { p.now.vars ≡ vars }
{
    if v == 0 || v > vars {
        return writeln!(out, "no variable");
    }
    put_entry(v, p.value(v), p.level(v), p.reason(v), out)
}

/// Writes what is reported of the variables that a text has.
fn put_told(p: &Propagator, vars: u32, text: &str, out: &mut String) -> Result<(), AllocError>
    requires { p.now.vars ≡ vars }
{
    for word in text.split_whitespace() {
        put_variable(p, vars, word.parse().unwrap_or(0), out)?;
    }
    Ok(())
}

/// Writes the clause that forced a variable.
fn put_reason(p: &Propagator, vars: u32, v: u32, out: &mut String) -> Result<(), AllocError>
    requires { p.now.vars ≡ vars }
{
    if v == 0 || v > vars {
        return writeln!(out, "no variable");
    }
    match p.reason(v) {
        Some(number) => put_line(p.clause(number), out),
        None => writeln!(out, "no reason"),
    }
}

/// Propagates, and writes the clause that is false.
fn put_clash(p: &mut Propagator, out: &mut String) -> Result<(), AllocError>
    ensures vars { p.new.vars ≡ p.old.vars }
    ensures clauses { p.new.clauses ≡ p.old.clauses }
{
    match p.propagate() {
        Propagated::Quiet => writeln!(out, "quiet"),
        Propagated::Conflict(number) => put_line(p.clause(number), out),
    }
}

/// Whether a text has the number.
fn has(text: &str, number: u64) -> bool {
    for word in text.split_whitespace() {
        if word.parse().unwrap_or(0) == number {
            return true;
        }
    }
    false
}

/// Writes how a propagation ends.
fn put_ending(end: Propagated, given: &str, out: &mut String) -> Result<(), AllocError> {
    match end {
        Propagated::Quiet => writeln!(out, "quiet"),
        Propagated::Conflict(k) => put_conflict(k, has(given, k), out),
    }
}

/// Writes a variable's true literal.
fn put_value(p: &Propagator, v: u32, out: &mut String) -> Result<(), AllocError>
    requires first { 0 < v }
    requires last { v ≤ p.now.vars }
{
    match p.value(v) {
        Some(true) => write!(out, " {v}"),
        Some(false) => write!(out, " -{v}"),
        None => Ok(()),
    }
}

/// Writes the true literals by their variables.
fn put_values(p: &Propagator, vars: u32, out: &mut String) -> Result<(), AllocError>
    requires { p.now.vars ≡ vars }
{
    for v in 0..vars {
        put_value(p, v + 1, out)?;
    }
    writeln!(out)
}

/// Propagates, and writes the true literals, or that a clause is false.
fn put_settled(p: &mut Propagator, vars: u32, out: &mut String) -> Result<(), AllocError>
    requires { p.old.vars ≡ vars }
    ensures vars { p.new.vars ≡ vars }
    ensures clauses { p.new.clauses ≡ p.old.clauses }
{
    match p.propagate() {
        Propagated::Quiet => put_values(p, vars, out),
        Propagated::Conflict(_) => writeln!(out, "conflict"),
    }
}

/// Writes the level and the reason of a variable that was forced.
fn put_forced(p: &Propagator, v: u32, out: &mut String) -> Result<(), AllocError>
    requires first { 0 < v }
    requires last { v ≤ p.now.vars }
{
    match (p.level(v), p.reason(v)) {
        (Some(level), Some(number)) => write!(out, " {level}:{number}"),
        _ => Ok(()),
    }
}

/// Writes the levels and the reasons of all variables that were forced.
fn put_reasons(p: &Propagator, vars: u32, out: &mut String) -> Result<(), AllocError>
    requires { p.now.vars ≡ vars }
{
    for v in 0..vars {
        put_forced(p, v + 1, out)?;
    }
    writeln!(out)
}

fn put_conflict(number: u64, is_given: bool, out: &mut String) -> Result<(), AllocError> {
    if is_given {
        writeln!(out, "one of these")
    } else {
        writeln!(out, "conflict {number}")
    }
}

/// Writes what is seen of a propagator that stays as it is.
fn put_seen(
    p: &Propagator,
    vars: u32,
    word: &str,
    rest: &str,
    out: &mut String,
) -> Result<(), AllocError>
    requires { p.now.vars ≡ vars }
{
    match word {
        "trail" => put_line(p.trail(), out),
        "end" => put_end(p.trail().len(), p.present_level(), out),
        "level" => writeln!(out, " {}", p.present_level()),
        "told" => put_told(p, vars, rest, out),
        "reasons" => put_reasons(p, vars, out),
        "why" => put_reason(p, vars, rest.parse().unwrap_or(0), out),
        _ => writeln!(out, "no move"),
    }
}

/// Adds a clause of these literals, or assigns the only one: whether it may.
fn takes(p: &mut Propagator, vars: u32, number: u64, word: &str, lits: &[Lit]) -> Result<bool, Fail>
    requires vars { p.old.vars ≡ vars }
    requires free { (n : ℕ) → number ≤ n → IsTrue (not (among (numbers_of p.old.clauses) n)) }
    ensures vars { p.new.vars ≡ vars }
    ensures free { (n : ℕ) → number < n → IsTrue (not (among (numbers_of p.new.clauses) n)) }
{
    match lits.first() {
        Some(l) if word == "assign" => Ok(assign(p, vars, *l)),
        Some(l) if word == "behind" => assign_behind(p, vars, number, *l),
        _ => add(p, vars, number, lits),
    }
}

/// Takes the literals that a text has, and writes whether it may.
fn put_taken(
    alloc: Global,
    p: &mut Propagator,
    vars: u32,
    number: u64,
    word: &str,
    rest: &str,
    out: &mut String,
) -> Result<(), Fail>
    requires vars { p.old.vars ≡ vars }
    requires free { (n : ℕ) → number ≤ n → IsTrue (not (among (numbers_of p.old.clauses) n)) }
    ensures vars { p.new.vars ≡ vars }
    ensures free { (n : ℕ) → number < n → IsTrue (not (among (numbers_of p.new.clauses) n)) }
{
    let lits = literals_of_text(alloc, rest)?;
    let is_taken = takes(p, vars, number, word, lits.as_slice())?;
    put(is_taken, out)?;
    Ok(())
}

/// Makes a move that adds no clause and assigns nothing, and writes what it returns.
fn put_moved(
    p: &mut Propagator,
    vars: u32,
    word: &str,
    rest: &str,
    out: &mut String,
) -> Result<(), AllocError>
    requires { p.old.vars ≡ vars }
    ensures vars { p.new.vars ≡ vars }
    ensures clauses { p.new.clauses ≡ p.old.clauses }
{
    match word {
        "propagate" => put_ending(p.propagate(), rest, out),
        "clash" => put_clash(p, out),
        "settle" => put_settled(p, vars, out),
        "retract" => put(retract(p, vars, rest.parse().unwrap_or(0)), out),
        _ => put_seen(p, vars, word, rest, out),
    }
}

/// Makes one move, and writes what it returns.
fn make(
    alloc: Global,
    p: &mut Propagator,
    vars: u32,
    number: u64,
    text: &str,
    out: &mut String,
) -> Result<(), Fail>
    requires vars { p.old.vars ≡ vars }
    requires free { (n : ℕ) → number ≤ n → IsTrue (not (among (numbers_of p.old.clauses) n)) }
    ensures vars { p.new.vars ≡ vars }
    ensures free { (n : ℕ) → number < n → IsTrue (not (among (numbers_of p.new.clauses) n)) }
{
    let (word, rest) = text.split_once(" ").unwrap_or((text, ""));
    match word {
        "add" | "assign" | "behind" => put_taken(alloc, p, vars, number, word, rest, out),
        _ => Ok(put_moved(p, vars, word, rest, out)?),
    }
}

/// Makes the moves of a text, and writes what they return. The numbers from above a last one are free.
pub(crate) fn play(
    alloc: Global,
    p: &mut Propagator,
    vars: u32,
    last: u32,
    moves: &str,
    out: &mut String,
) -> Result<(), Fail>
    requires vars { p.old.vars ≡ vars }
    requires free { (n : ℕ) → last < n → IsTrue (not (among (numbers_of p.old.clauses) n)) }
{
    let mut number = u64::from(last);
    for text in moves.split(";") {
        number = number.checked_add(1).ok_or("no number")?;
        make(alloc, p, vars, number, text.trim(), out)?;
    }
    Ok(())
}
