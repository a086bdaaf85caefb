//! Sets of variables, and clauses without the literals of such a set.
ghost use Rattle.std.specs.Prelude.{◌≡◌, ◌<◌, ◌≤◌, ◌||◌, ◌&&◌, ◌==◌, not, ℕ, IfOk, OnOk, IsTrue, replicate, false};
ghost use Rattle.std.specs.Prelude.{length, []};
ghost use Rattle.std.specs.List.{list_all};
ghost use Rattle.lk_model.specs.Lists.{among, rises_within};
ghost use Rattle.lk_model.specs.Formulas.Literal.{is_clause, is_literal, mentions};
ghost use Rattle.lk_model.specs.Formulas.Formula.{clause_at, variable_occurs};
ghost use Rattle.lk_model.specs.Formulas.Lean.{are_positions};
ghost use Rattle.lk_model.specs.Formulas.Crossed.{crossed_out, formula_without};
ghost use Rattle.lk_model.specs.Held.VariableSets.{is_in, with_variable, IsCrossed};

use crate::formula::Formula;
use crate::list::{List, OutOfMemory};
use crate::lit::Lit;
use std::alloc::Global;
use std::marker::Model;

/// A set of variables from 1 to n. Contracts see for each of them whether the set has it.
#[derive(Drop)]
pub struct VarSet {
    flags: Vec<bool>,
}

impl Model for VarSet {
    ghost use Rattle.std.specs.Prelude.{List, Bool};

    ghost Value = { List Bool };

    ghost view = { λ s. s.flags.items };
}

impl VarSet {
    /// The empty set of the variables up to n.
    pub fn new(alloc: Global, n: u32) -> Result<VarSet, OutOfMemory>
        ensures { IfOk result (λ s. s ≡ replicate n false) }
    {
        Ok(VarSet {
            flags: vec![in alloc; false; n as usize]?,
        })
    }

    /// The set of these variables up to n.
    pub fn of(alloc: Global, n: u32, vars: &[u32]) -> Result<VarSet, OutOfMemory>
        requires { IsTrue (rises_within 0 n vars.now) }
        ensures size { IfOk result (λ s. length s ≡ n) }
        ensures vars { IfOk result (λ s. (v : ℕ) → is_in s v ≡ among vars.now v) }
    {
        let mut set = VarSet::new(alloc, n)?;
        set.add_all(vars);
        Ok(set)
    }

    /// Puts a variable in.
    pub fn add(&mut self, v: u32)
        requires first { 0 < v }
        requires last { v ≤ length self.old }
        ensures { self.new ≡ with_variable self.old v }
    {
        self.flags[v as usize - 1] = true;
    }

    // Puts variables in.
    fn add_all(&mut self, vars: &[u32])
        requires { IsTrue (rises_within 0 (length self.old) vars.now) }
        ensures size { length self.new ≡ length self.old }
        ensures vars { (v : ℕ) → is_in self.new v ≡ (is_in self.old v || among vars.now v) }
    {
        for v in vars {
            self.add(*v);
        }
    }

    /// Puts the variables of a clause in.
    pub fn add_clause(&mut self, clause: &[Lit])
        requires { IsTrue (list_all (is_literal (length self.old)) clause.now) }
        ensures size { length self.new ≡ length self.old }
        ensures vars { (v : ℕ) → is_in self.new v ≡ (is_in self.old v || mentions clause.now v) }
    {
        for l in clause {
            self.add(l.var());
        }
    }

    /// Puts the variables of the clauses at positions of a formula in.
    pub fn add_clauses(&mut self, f: &Formula, positions: &[u32])
        requires positions { IsTrue (are_positions f.now positions.now) }
        requires size { length self.old ≡ f.now.vars }
        ensures size { length self.new ≡ length self.old }
        ensures vars { (v : ℕ) → is_in self.new v ≡ (is_in self.old v || variable_occurs f.now positions.now v) }
    {
        for p in positions {
            self.add_clause(f.clause(*p));
        }
    }

    /// Takes a variable out.
    pub fn remove(&mut self, v: u32)
        requires first { 0 < v }
        requires last { v ≤ length self.old }
        ensures size { length self.new ≡ length self.old }
        ensures vars { (u : ℕ) → is_in self.new u ≡ (is_in self.old u && not (u == v)) }
    {
        self.flags[v as usize - 1] = false;
    }

    /// Takes the variables of a clause out.
    pub fn remove_clause(&mut self, clause: &[Lit])
        requires { IsTrue (list_all (is_literal (length self.old)) clause.now) }
        ensures size { length self.new ≡ length self.old }
        ensures vars { (v : ℕ) → is_in self.new v ≡ (is_in self.old v && not (mentions clause.now v)) }
    {
        for l in clause {
            self.remove(l.var());
        }
    }

    /// Whether it has a variable.
    pub fn has(&self, v: u32) -> bool
        requires first { 0 < v }
        requires last { v ≤ length self.now }
        ensures { result ≡ is_in self.now v }
    {
        self.flags[v as usize - 1]
    }
}

/// The clauses of a formula at the positions of a part, ascending, without the literals of blocked
/// variables.
#[derive(Clone, Copy)]
pub struct Crossed<'a> {
    pub formula: &'a Formula,
    pub part: &'a [u32],
    pub blocked: &'a VarSet,
}

impl Crossed<'_> {
    /// The clause at a position of the formula, without the literals of blocked variables, in the
    /// formula's order.
    pub fn clause(&self, alloc: Global, position: u32) -> Result<List<Lit>, OutOfMemory>
        requires crossed { IsCrossed self.now }
        requires first { 0 < position }
        requires last { position ≤ length self.now.formula.now.clauses }
        ensures { IfOk result
            (λ c. c ≡ crossed_out (is_in self.now.blocked.now) (clause_at self.now.formula.now position)) }
    {
        let mut lits = Vec::new(alloc);
        cross_out(self.formula.clause(position), self.blocked, &mut lits)?;
        Ok(List::from_vec(lits))
    }
}

impl Formula {
    /// The formula of as many variables and clauses in which the literals on the variables of a set are
    /// left out.
    pub fn without(&self, alloc: Global, blocked: &VarSet) -> Result<Formula, OutOfMemory>
        requires { length blocked.now ≡ self.now.vars }
        ensures { IfOk result (λ f. f ≡ formula_without self.now (is_in blocked.now)) }
    {
        let mut rest = self.empty(alloc);
        let mut lits = Vec::new(alloc);
        for k in 0..self.len() {
            lits.clear();
            cross_out(self.clause(k + 1), blocked, &mut lits)?;
            rest.push_within(lits.as_slice())?;
        }
        Ok(rest)
    }
}

/// Appends the literals of a clause that are not on a variable of the set, in their order.
fn cross_out(clause: &[Lit], blocked: &VarSet, lits: &mut Vec<Lit>) -> Result<(), OutOfMemory>
    requires clause { IsTrue (is_clause (length blocked.now) clause.now) }
    requires empty { lits.old.items ≡ [] }
    ensures { OnOk result (lits.new.items ≡ crossed_out (is_in blocked.now) clause.now) }
{
    for l in clause {
        if !blocked.has(l.var()) {
            lits.push(*l)?;
        }
    }
    Ok(())
}
