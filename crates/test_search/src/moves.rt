//! What a propagator is asked for, and whether it may be.
ghost use Rattle.std.specs.Prelude.{◌≡◌, ◌<◌, ◌≤◌, ℕ, not, IsTrue, IsNone};
ghost use Rattle.lk_model.specs.Lists.{among};
ghost use Rattle.lk_model.specs.Formulas.Literal.{variable, is_literal};
ghost use Rattle.watch_prop.specs.Propagation.{assigned, is_quiet, numbers_of};

use crate::starts::may_hold;
use lk_model::Lit;
use std::test::Fail;
use watch_prop::{Propagated, Propagator};

/// Propagates, and returns whether the literal may be assigned then: that ends quiet, and it is unset.
pub(crate) fn opens(p: &mut Propagator, vars: u32, l: Lit) -> bool
    requires { p.old.vars ≡ vars }
    ensures vars { p.new.vars ≡ vars }
    ensures clauses { p.new.clauses ≡ p.old.clauses }
    ensures within { IsTrue result → IsTrue (is_literal vars l) }
    ensures unset { IsTrue result → IsNone (assigned p.new (variable l)) }
    ensures quiet { IsTrue result → IsTrue (is_quiet (assigned p.new) p.new.clauses) }
{
    match p.propagate() {
        Propagated::Quiet => l.var() <= vars && p.value(l.var()).is_none(),
        Propagated::Conflict(_) => false,
    }
}

/// Makes an unset literal true where no clause is false or forces one: whether it does.
pub(crate) fn assign(p: &mut Propagator, vars: u32, l: Lit) -> bool
    requires { p.old.vars ≡ vars }
    ensures vars { p.new.vars ≡ vars }
    ensures clauses { p.new.clauses ≡ p.old.clauses }
{
    let is_open = opens(p, vars, l);
    if is_open {
        p.assign(l);
    }
    is_open
}

/// Adds the clause of the first true literal, if there is one.
fn add_true(p: &mut Propagator, vars: u32, number: u64) -> Result<(), Fail>
    requires vars { p.old.vars ≡ vars }
    requires free { (n : ℕ) → number ≤ n → IsTrue (not (among (numbers_of p.old.clauses) n)) }
    requires quiet { IsTrue (is_quiet (assigned p.old) p.old.clauses) }
    ensures vars { p.new.vars ≡ vars }
    ensures free { (n : ℕ) → number < n → IsTrue (not (among (numbers_of p.new.clauses) n)) }
    ensures quiet { IsTrue (is_quiet (assigned p.new) p.new.clauses) }
    ensures trail { p.new.trail ≡ p.old.trail }
{
    let l = match p.trail().first() {
        Some(l) => *l,
        None => return Ok(()),
    };
    if l.var() > vars || p.value(l.var()) != Some(l.positive()) {
        return Err(Fail::from("no true literal"));
    }
    Ok(p.add(number, &[l])?)
}

/// Does as `assign`, after a clause that is true and was not looked at.
pub(crate) fn assign_behind(
    p: &mut Propagator,
    vars: u32,
    number: u64,
    l: Lit,
) -> Result<bool, Fail>
    requires vars { p.old.vars ≡ vars }
    requires free { (n : ℕ) → number ≤ n → IsTrue (not (among (numbers_of p.old.clauses) n)) }
    ensures vars { p.new.vars ≡ vars }
    ensures free { (n : ℕ) → number < n → IsTrue (not (among (numbers_of p.new.clauses) n)) }
{
    if !opens(p, vars, l) {
        return Ok(false);
    }
    add_true(p, vars, number)?;
    p.assign(l);
    Ok(true)
}

/// Adds a clause, if it may be held: whether it may.
pub(crate) fn add(p: &mut Propagator, vars: u32, number: u64, lits: &[Lit]) -> Result<bool, Fail>
    requires vars { p.old.vars ≡ vars }
    requires free { (n : ℕ) → number ≤ n → IsTrue (not (among (numbers_of p.old.clauses) n)) }
    ensures vars { p.new.vars ≡ vars }
    ensures free { (n : ℕ) → number < n → IsTrue (not (among (numbers_of p.new.clauses) n)) }
{
    if !may_hold(vars, lits) {
        return Ok(false);
    }
    p.add(number, lits)?;
    Ok(true)
}

/// Takes back what came above a level: whether there is so high a level.
pub(crate) fn retract(p: &mut Propagator, vars: u32, level: u32) -> bool
    requires { p.old.vars ≡ vars }
    ensures vars { p.new.vars ≡ vars }
    ensures clauses { p.new.clauses ≡ p.old.clauses }
{
    let is_there = level <= p.present_level();
    if is_there {
        p.retract(level);
    }
    is_there
}
