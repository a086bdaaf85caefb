//! Propagators.
ghost use Rattle.std.specs.Prelude.{◌≡◌, ◌+◌, ◌*◌, ◌<◌, ◌≤◌, [], not, ◌&&◌, Some, IfOk, OnOk, OnErr, IsTrue, IfSome};
ghost use Rattle.std.specs.Prelude.{IsNone, IsSome, length};
ghost use Rattle.lk_model.specs.Lists.{among, is_empty};
ghost use Rattle.lk_model.specs.Formulas.Literal.{variable, is_literal, is_clause};
ghost use Rattle.lk_model.specs.Formulas.Crossed.{crossed_out};
ghost use Rattle.lk_model.specs.Held.VariableSets.{is_in, IsCrossed};
ghost use Rattle.watch_prop.specs.Trail.{literals_of, level_of, reason_of, present_level, clause_numbered};
ghost use Rattle.watch_prop.specs.Propagation.{Propagation, IsPropagation, assigned, numbers_of, crossed_clauses};
ghost use Rattle.watch_prop.specs.Propagation.{is_quiet, IsAnswered, GoesOn, with_held, with_assigned, back_at};
ghost use Rattle.watch_prop.specs.Propagation.{may_be_held};

use crate::clauses::Clauses;
use crate::entry::Propagated;
use crate::places::place_of;
use crate::state::{State, propagate};
use crate::trail::Trail;
use crate::watch::Watch;
use crate::watcher_lists::WatcherLists;
use lk_model::{Crossed, Lit, LitTable, OutOfMemory, VarSet};
use std::alloc::Global;
use std::marker::Model;

/// Clauses with numbers over the variables from 1 to n, and a trail: the literals that are true, in the
/// order in which they became true, each with its level and its reason. A literal was assigned, which
/// opened its level, or has a reason: the number of a clause that contains it and whose other literals are
/// all complements of earlier literals of the trail. Level 0 comes before the first assigned literal.
#[derive(Drop)]
pub struct Propagator {
    clauses: Clauses,
    trail: Trail,
    state: State,
}

impl Model for Propagator {
    ghost use Rattle.watch_prop.specs.Propagation.{Propagation};

    ghost Value = { Propagation };

    ghost use Rattle.watch_prop.specs.HeldPropagator.{propagator_seen, IsHeldPropagator};

    ghost view = { propagator_seen };

    ghost invariant = { IsHeldPropagator };
}

impl Propagator {
    /// The non-empty crossed clauses of the part, each with its position as its number, and an empty
    /// trail.
    pub fn new(alloc: Global, over: &Crossed) -> Result<Propagator, OutOfMemory>
        requires { IsCrossed over.now }
        ensures vars { IfOk result (λ p. p.vars ≡ over.now.formula.now.vars) }
        ensures clauses { IfOk result (λ p. p.clauses ≡ crossed_clauses over.now) }
        ensures trail { IfOk result (λ p. p.trail ≡ []) }
        ensures held { IfOk result (λ p. IsPropagation p) }
    {
        let expected = occurrences(alloc, over)?;
        let mut propagator = Propagator::without_clauses(alloc, over.formula.vars(), &expected)?;
        propagator.hold_part(alloc, over)?;
        Ok(propagator)
    }

    /// Holds one more clause, which is not empty and has no variable twice, under a number that no
    /// clause has yet. The trail stays. After an error the propagator is as it was.
    pub fn add(&mut self, number: u64, lits: &[Lit]) -> Result<(), OutOfMemory>
        requires clause { IsTrue (may_be_held self.old.vars lits.now) }
        requires fresh { IsTrue (not (among (numbers_of self.old.clauses) number)) }
        ensures ok { OnOk result (self.new ≡ with_held self.old number lits.now) }
        ensures err { OnErr result (self.new ≡ self.old) }
    {
        self.hold(number, lits)
    }

    /// Makes an unset literal true, at a new level, where no clause is false or forces a literal.
    pub fn assign(&mut self, l: Lit)
        requires within { IsTrue (is_literal self.old.vars l) }
        requires unset { IsNone (assigned self.old (variable l)) }
        requires quiet { IsTrue (is_quiet (assigned self.old) self.old.clauses) }
        ensures { self.new ≡ with_assigned self.old l }
    {
        // Forces nothing, and passes on what is left: below the present level nothing is left.
        let _quiet = propagate(&self.clauses, &mut self.trail, &mut self.state);
        let level = self.trail.level() + 1;
        self.trail.put(l, level, None);
        self.state.marks.push_reserved(self.state.waiting.len());
    }

    /// Unit propagation: makes literals true at the present level that a clause forces, with that clause
    /// as the reason, until no clause forces one or a clause is false.
    pub fn propagate(&mut self) -> Propagated
        ensures goes_on { GoesOn self.old self.new }
        ensures answer { IsAnswered self.new result }
        ensures held { IsPropagation self.new }
    {
        propagate(&self.clauses, &mut self.trail, &mut self.state)
    }

    /// Takes back what came above a level, at most the present one.
    pub fn retract(&mut self, level: u32)
        requires { level ≤ present_level self.old.trail }
        ensures { self.new ≡ back_at self.old level }
    {
        let place = level as usize;
        if place < self.state.marks.len() {
            self.state.satisfied = self.state.marks[place];
            self.state.marks.truncate(place);
            self.trail.retract(level);
            self.state.head = self.trail.len();
        }
    }

    /// The true literals in the order in which they came.
    pub fn trail(&self) -> &[Lit]
        ensures value { result.now ≡ literals_of self.now.trail }
        ensures held { IsPropagation self.now }
    {
        self.trail.lits()
    }

    /// The value of a variable, if it is set.
    pub fn value(&self, v: u32) -> Option<bool>
        requires first { 0 < v }
        requires last { v ≤ self.now.vars }
        ensures { result ≡ assigned self.now v }
    {
        self.trail.entry(v).map(|entry| entry.lit.positive())
    }

    /// The level at which a variable was set, if it was.
    pub fn level(&self, v: u32) -> Option<u32>
        requires first { 0 < v }
        requires last { v ≤ self.now.vars }
        ensures { result ≡ level_of self.now.trail v }
    {
        self.trail.entry(v).map(|entry| entry.level)
    }

    /// The number of the clause that forced the value of a variable, if one did.
    pub fn reason(&self, v: u32) -> Option<u64>
        requires first { 0 < v }
        requires last { v ≤ self.now.vars }
        ensures value { result ≡ reason_of self.now.trail v }
        ensures held { IfSome result (λ k. IsSome (clause_numbered self.now.clauses k)) }
    {
        self.trail.entry(v).and_then(|entry| entry.reason)
    }

    /// The level of the last true literal, 0 before the first.
    pub fn present_level(&self) -> u32
        ensures value { result ≡ present_level self.now.trail }
        ensures most { result ≤ self.now.vars }
    {
        self.trail.level()
    }

    /// The literals of the clause of a number, as they were given. There must be such a clause.
    pub fn clause(&self, number: u64) -> &[Lit]
        requires { IsSome (clause_numbered self.now.clauses number) }
        ensures { clause_numbered self.now.clauses number ≡ Some result.now }
    {
        self.clauses.lits(place_of(&self.clauses, number))
    }

    // The propagator without a clause, with room for as many clauses with each literal as are expected.
    fn without_clauses(
        alloc: Global,
        n: u32,
        expected: &LitTable<u32>,
    ) -> Result<Propagator, OutOfMemory>
        requires few { n ≤ 1000000 }
        requires expected { length expected.now ≡ 2 * n + 2 }
        ensures vars { IfOk result (λ p. p.vars ≡ n) }
        ensures clauses { IfOk result (λ p. p.clauses ≡ []) }
        ensures trail { IfOk result (λ p. p.trail ≡ []) }
    {
        let marks = Vec::with_capacity(alloc, n as usize)?;
        let lists = WatcherLists::new(alloc, n, expected)?;
        Ok(Propagator {
            trail: Trail::new(alloc, n)?,
            clauses: Clauses::new(alloc),
            state: State {
                watches: Vec::new(alloc),
                saved: Vec::new(alloc),
                lists,
                waiting: Vec::new(alloc),
                satisfied: 0,
                head: 0,
                marks,
            },
        })
    }

    // Holds the first clauses: the non-empty crossed ones of the part, each with its position as its number. They are
    // crossed out one after another in one buffer.
    fn hold_part(&mut self, alloc: Global, over: &Crossed) -> Result<(), OutOfMemory>
        requires crossed { IsCrossed over.now }
        requires none { self.old.clauses ≡ [] }
        requires vars { self.old.vars ≡ over.now.formula.now.vars }
        ensures { OnOk result (self.new ≡ record self.old { clauses = crossed_clauses over.now }) }
    {
        let mut lits = Vec::new(alloc);
        for p in over.part {
            cross_out(&mut lits, over.formula.clause(*p), over.blocked)?;
            if lits.len() > 0 {
                self.hold(u64::from(*p), &lits)?;
            }
        }
        Ok(())
    }

    // Holds one more clause. If there is no room for it in the lists, it is taken back; and there is none for a
    // clause whose place needs more than 32 bits.
    fn hold(&mut self, number: u64, lits: &[Lit]) -> Result<(), OutOfMemory>
        requires clause { IsTrue (not (is_empty lits.now) && is_clause self.old.vars lits.now) }
        requires fresh { IsTrue (not (among (numbers_of self.old.clauses) number)) }
        ensures ok { OnOk result (self.new ≡ with_held self.old number lits.now) }
        ensures err { OnErr result (self.new ≡ self.old) }
    {
        let len = self.clauses.len();
        let Ok(place) = u32::try_from(len) else {
            return Err(OutOfMemory);
        };
        self.state.watches.reserve(1)?;
        self.state.waiting.reserve(1)?;
        self.state.saved.reserve(1)?;
        self.clauses.push(number, lits)?;
        if let Err(error) = self.state.lists.count(lits) {
            self.clauses.truncate(len);
            return Err(error);
        }
        let l = lits[0];
        self.state.watches.push_reserved(Watch {
            first: l,
            second: l,
        });
        self.state.waiting.push_reserved(place);
        self.state.saved.push_reserved(0);
        Ok(())
    }
}

// How often each literal occurs in the crossed clauses of the part. The numbers only say how much room to make, so no
// clause states them.
fn occurrences(alloc: Global, over: &Crossed) -> Result<LitTable<u32>, OutOfMemory>
    requires { IsCrossed over.now }
    ensures { IfOk result (λ t. length t ≡ 2 * over.now.formula.now.vars + 2) }
{
    let mut counts = LitTable::new(alloc, over.formula.vars(), 0)?;
    for p in over.part {
        count_occurrences(&mut counts, over.formula.clause(*p), over.blocked);
    }
    Ok(counts)
}

// Counts the literals of one more clause that are not on a variable of the set.
fn count_occurrences(counts: &mut LitTable<u32>, clause: &[Lit], blocked: &VarSet)
    requires clause { IsTrue (is_clause (length blocked.now) clause.now) }
    requires counts { length counts.old ≡ 2 * length blocked.now + 2 }
    ensures { length counts.new ≡ length counts.old }
{
    for l in clause {
        if !blocked.has(l.var()) {
            counts[*l] = counts[*l].saturating_add(1);
        }
    }
}

// Makes a buffer hold the literals of a clause that are not on a variable of the set, in their order.
fn cross_out(lits: &mut Vec<Lit>, clause: &[Lit], blocked: &VarSet) -> Result<(), OutOfMemory>
    requires { IsTrue (is_clause (length blocked.now) clause.now) }
    ensures { OnOk result (lits.new.items ≡ crossed_out (is_in blocked.now) clause.now) }
{
    lits.clear();
    for l in clause {
        if !blocked.has(l.var()) {
            lits.push(*l)?;
        }
    }
    Ok(())
}
