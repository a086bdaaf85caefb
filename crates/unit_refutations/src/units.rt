//! Refutations by unit propagation.
//!
//! A clause whose literals but one are false forces this one (Davis and Putnam, 1960). What is forced is never decided,
//! so it stays true where further variables are blocked: a clause that forced it contains it still, and its other
//! literals are false or blocked. So one trail serves all refutations, and each of them costs what it uses and what is
//! forced anew.
ghost use Rattle.std.specs.Prelude.{◌≡◌, ◌+◌, ◌*◌, ◌<◌, ◌≤◌, ◌||◌, ◌++◌, ◌∷◌, [], ℕ, None, Some, false, length};
ghost use Rattle.std.specs.Prelude.{replicate, slice_set, IfOk, OnOk, IsTrue};
ghost use Rattle.std.specs.List.{list_all};
ghost use Rattle.lk_model.specs.Limits.{max_vars};
ghost use Rattle.lk_model.specs.Formulas.Literal.{complement, is_literal, mentions, rank_of};
ghost use Rattle.lk_model.specs.Formulas.Formula.{clause_at, variable_occurs};
ghost use Rattle.lk_model.specs.Formulas.Lean.{are_positions};
ghost use Rattle.lk_model.specs.Held.VariableSets.{is_in, IsCrossed};
ghost use Rattle.occurrence_lists.specs.Occurrences.{AreOccurrences};
ghost use Rattle.unit_refutations.specs.Contained.{contains_none};
ghost use Rattle.unit_refutations.specs.Standing.{AreRanges, IsKept, IsWithin, IsFalseAt, IsFoundAt, IsAnswer};
ghost use Rattle.unit_refutations.specs.Standing.{are_between};

use crate::agenda::{Agenda, Change};
use crate::chain::{Chain, chain_from};
use crate::containing::contains_none;
use crate::looking::{Look, demand_of};
use crate::trail::Trail;
use lk_model::{Crossed, Formula, List, Lit, OutOfMemory, Round, Step, VarSet};
use occurrence_lists::OccurrenceLists;
use std::alloc::Global;

/// What unit propagation makes of the clauses of a part, while more and more variables are blocked.
#[derive(Drop)]
pub struct Units {
    pub(crate) lists: OccurrenceLists,
    pub(crate) agenda: Agenda,
    pub(crate) trail: Trail,
}

/// A refutation, and the positions that it uses, in any order.
#[derive(Drop)]
pub struct UnitRefutation {
    pub round: Round,
    pub used: List<u32>,
}

impl Units {
    /// Where no variable is blocked, and nothing is propagated yet.
    pub fn new(alloc: Global, f: &Formula, part: &[u32]) -> Result<Units, OutOfMemory>
        requires { IsTrue (are_positions f.now part.now) }
        ensures kept { IfOk result (IsKept f.now (replicate f.now.vars false)) }
        ensures within { IfOk result (IsWithin part.now) }
    {
        Units::by_lists(alloc, f, part, OccurrenceLists::new(alloc, f)?)
    }

    /// As `new`, where the lists of the formula are there.
    pub fn by_lists(
        alloc: Global,
        f: &Formula,
        part: &[u32],
        lists: OccurrenceLists,
    ) -> Result<Units, OutOfMemory>
        requires part { IsTrue (are_positions f.now part.now) }
        requires lists { AreOccurrences f.now lists }
        ensures kept { IfOk result (IsKept f.now (replicate f.now.vars false)) }
        ensures within { IfOk result (IsWithin part.now) }
    {
        Ok(Units {
            lists,
            agenda: Agenda::new(alloc, f, part)?,
            trail: Trail::new(alloc, f.vars())?,
        })
    }

    /// Propagates without the blocked variables, and returns the refutation by one step, numbered `next`, if a clause
    /// that is not empty is false. No clause says that there is no refutation if it returns none.
    pub fn refute(
        &mut self,
        alloc: Global,
        over: &Crossed,
        next: u64,
    ) -> Result<Option<UnitRefutation>, OutOfMemory>
        requires crossed { IsCrossed over.now }
        requires kept { IsKept over.now.formula.now over.now.blocked.now self.old }
        requires within { IsWithin over.now.part.now self.old }
        ensures kept { OnOk result (IsKept over.now.formula.now over.now.blocked.now self.new) }
        ensures within { OnOk result (IsWithin over.now.part.now self.new) }
        ensures answer { IfOk result (IsAnswer over.now next) }
    {
        match self.propagate(over.formula, over.blocked)? {
            Some(conflict) => {
                let chain = chain_from(alloc, over, &self.trail, conflict)?;
                Ok(Some(refutation_of(alloc, next, conflict, chain)?))
            }
            None => Ok(None),
        }
    }

    /// Whether the clause at a position is inside.
    pub fn has(&self, position: u32) -> bool
        requires first { 0 < position }
        requires last { position ≤ length self.now.agenda.inside }
        ensures { result ≡ is_in self.now.agenda.inside position }
    {
        self.agenda.has(position)
    }

    /// How many literals of the clause at a position are unset, where it is inside and propagation makes none true. No
    /// clause says so.
    pub fn unset_at(&self, position: u32) -> Option<u32> {
        self.agenda.unset_at(position)
    }

    /// Whether a clause contains no crossed clause of the part that is not empty. No clause says that it returns true
    /// wherever it contains none.
    pub fn contains_none(&self, over: &Crossed, clause: &[Lit]) -> bool
        requires crossed { IsCrossed over.now }
        requires kept { IsKept over.now.formula.now over.now.blocked.now self.now }
        requires literals { IsTrue (list_all (is_literal over.now.formula.now.vars) clause.now) }
        ensures { IsTrue result → IsTrue (contains_none over.now clause.now) }
    {
        contains_none(&self.lists, over, clause)
    }

    /// Blocks the variables of the clauses at some positions, which are put into the set of those that are blocked.
    pub fn block(
        &mut self,
        f: &Formula,
        positions: &[u32],
        blocked: &mut VarSet,
    ) -> Result<(), OutOfMemory>
        requires positions { IsTrue (are_between f.now positions.now) }
        requires size { length blocked.old ≡ f.now.vars }
        requires kept { IsKept f.now blocked.old self.old }
        ensures size { length blocked.new ≡ length blocked.old }
        ensures vars { OnOk result ((v : ℕ) →
            is_in blocked.new v ≡ (is_in blocked.old v || variable_occurs f.now positions.now v)) }
        ensures kept { OnOk result (IsKept f.now blocked.new self.new) }
        ensures inside { self.new.agenda.inside ≡ self.old.agenda.inside }
    {
        for position in positions {
            self.block_clause(f, *position, blocked)?;
        }
        Ok(())
    }

    // Blocks the variables of the clause at a position.
    fn block_clause(
        &mut self,
        f: &Formula,
        position: u32,
        blocked: &mut VarSet,
    ) -> Result<(), OutOfMemory>
        requires first { 0 < position }
        requires last { position ≤ length f.now.clauses }
        requires size { length blocked.old ≡ f.now.vars }
        requires kept { IsKept f.now blocked.old self.old }
        ensures size { length blocked.new ≡ length blocked.old }
        ensures vars { OnOk result ((v : ℕ) →
            is_in blocked.new v ≡ (is_in blocked.old v || mentions (clause_at f.now position) v)) }
        ensures kept { OnOk result (IsKept f.now blocked.new self.new) }
        ensures inside { self.new.agenda.inside ≡ self.old.agenda.inside }
    {
        for l in f.clause(position) {
            if !blocked.has(l.var()) {
                self.release(l.var())?;
                blocked.add(l.var());
            }
        }
        Ok(())
    }

    // Takes back the value of a variable that is to be blocked.
    fn release(&mut self, v: u32) -> Result<(), OutOfMemory>
        requires first { 0 < v }
        requires few { v ≤ max_vars }
        requires last { 2 * v + 1 < length self.old.trail.places }
        requires lists { length self.old.lists ≡ length self.old.trail.places }
        requires ranges { AreRanges (length self.old.agenda.inside) self.old.lists }
        ensures lists { self.new.lists ≡ self.old.lists }
        ensures inside { self.new.agenda.inside ≡ self.old.agenda.inside }
        ensures lits { OnOk result (self.new.trail.lits ≡ self.old.trail.lits) }
        ensures reasons { OnOk result (self.new.trail.reasons ≡ self.old.trail.reasons) }
        ensures places { OnOk result
            (self.new.trail.places ≡ slice_set (slice_set self.old.trail.places (2 * v) None) (2 * v + 1) None) }
    {
        self.close(Lit::from_var(v, true))?;
        self.close(Lit::from_var(v, false))?;
        self.trail.take_back(v);
        Ok(())
    }

    // Notes at the clauses with a literal that its variable is to be blocked.
    fn close(&mut self, l: Lit) -> Result<(), OutOfMemory>
        requires rank { rank_of l < length self.old.trail.places }
        requires other { rank_of (complement l) < length self.old.trail.places }
        requires lists { length self.old.lists ≡ length self.old.trail.places }
        requires ranges { AreRanges (length self.old.agenda.inside) self.old.lists }
        ensures lists { self.new.lists ≡ self.old.lists }
        ensures inside { self.new.agenda.inside ≡ self.old.agenda.inside }
        ensures trail { self.new.trail ≡ self.old.trail }
    {
        let change = if self.trail.is_true(l) {
            Change::Released
        } else if self.trail.is_true(l.negated()) {
            return Ok(());
        } else {
            Change::Closed
        };
        self.agenda.note_all(self.lists.positions(l), change)
    }

    // Propagates until a clause is false, and returns its position, or until nothing more is forced.
    fn propagate(&mut self, f: &Formula, blocked: &VarSet) -> Result<Option<u32>, OutOfMemory>
        requires size { length blocked.now ≡ f.now.vars }
        requires kept { IsKept f.now blocked.now self.old }
        ensures kept { OnOk result (IsKept f.now blocked.now self.new) }
        ensures inside { self.new.agenda.inside ≡ self.old.agenda.inside }
        ensures conflict { IfOk result (IsFalseAt f.now blocked.now self.new) }
    {
        'found: loop {
            match self.next_found(f, blocked) {
                Found::Quiet => return Ok(None),
                Found::Conflict(position) => return Ok(Some(position)),
                Found::Forced(l, position) => self.put(l, position)?,
            }
        }
    }

    // Looks at the clauses that wait until one asks for something.
    fn next_found(&mut self, f: &Formula, blocked: &VarSet) -> Found
        requires size { length blocked.now ≡ f.now.vars }
        requires kept { IsKept f.now blocked.now self.old }
        ensures kept { IsKept f.now blocked.now self.new }
        ensures inside { self.new.agenda.inside ≡ self.old.agenda.inside }
        ensures trail { self.new.trail ≡ self.old.trail }
        ensures found { IsFoundAt f.now blocked.now self.new result }
    {
        'waiting: while let Some(position) = self.agenda.next() {
            match demand_of(f.clause(position), blocked, &self.trail) {
                Look::Nothing => {}
                Look::Truth(l) => return Found::Forced(l, position),
                Look::Conflict => return Found::Conflict(position),
            }
        }
        Found::Quiet
    }

    // Makes a literal true that the clause at a position forces.
    fn put(&mut self, l: Lit, position: u32) -> Result<(), OutOfMemory>
        requires rank { rank_of l < length self.old.trail.places }
        requires other { rank_of (complement l) < length self.old.trail.places }
        requires lists { length self.old.lists ≡ length self.old.trail.places }
        requires ranges { AreRanges (length self.old.agenda.inside) self.old.lists }
        ensures lists { self.new.lists ≡ self.old.lists }
        ensures inside { self.new.agenda.inside ≡ self.old.agenda.inside }
        ensures lits { OnOk result (self.new.trail.lits ≡ self.old.trail.lits ++ l ∷ []) }
        ensures reasons { OnOk result (self.new.trail.reasons ≡ self.old.trail.reasons ++ position ∷ []) }
        ensures places { OnOk result
            (self.new.trail.places ≡ slice_set self.old.trail.places (rank_of l) (Some (length self.old.trail.lits))) }
    {
        self.trail.put(l, position)?;
        self.agenda
            .note_all(self.lists.positions(l), Change::Satisfied)?;
        self.agenda
            .note_all(self.lists.positions(l.negated()), Change::Closed)
    }
}

// What propagation finds next.
#[derive(Clone, Copy)]
enum Found {
    // No clause asks for anything.
    Quiet,
    // The clause at a position forces a literal.
    Forced(Lit, u32),
    // The clause at a position is false.
    Conflict(u32),
}

// The refutation by the step of a chain, which states the empty clause.
fn refutation_of(
    alloc: Global,
    next: u64,
    first: u32,
    chain: Chain,
) -> Result<UnitRefutation, OutOfMemory>
    ensures steps { IfOk result
        (λ r. r.round.steps ≡ record { number = next; clause = []; first = first; turns = chain.turns.items } ∷ []) }
    ensures used { IfOk result (λ r. r.used ≡ chain.used) }
{
    let mut steps = List::new(alloc);
    steps.push(Step {
        number: next,
        clause: List::new(alloc),
        first: u64::from(first),
        turns: List::from_vec(chain.turns),
    })?;
    Ok(UnitRefutation {
        round: Round { steps },
        used: chain.used,
    })
}
