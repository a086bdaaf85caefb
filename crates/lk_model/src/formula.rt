//! Formulas.
ghost use Rattle.std.specs.Prelude.{◌≡◌, [], ◌+◌, ◌<◌, ◌≤◌, ◌↔◌, ◌⊎◌, length, OnOk, OnErr, IfOk, IsErrOf};
ghost use Rattle.std.specs.Prelude.{IsTrue, IsFalse};
ghost use Rattle.std.specs.Bool.{OnTrue};
ghost use Rattle.std.specs.Prelude.{slice_index, slice_index_or};
ghost use Rattle.lk_model.specs.Held.Flat.{cut, AreEnds, begin_of};
ghost use Rattle.lk_model.specs.Limits.{max_vars, max_clauses, max_literals};
ghost use Rattle.lk_model.specs.Formulas.Literal.{is_clause};
ghost use Rattle.lk_model.specs.Formulas.Formula.{clause_at, clauses_at, is_formula, IsWithinLimits, literal_count};
ghost use Rattle.lk_model.specs.Formulas.Formula.{positions_of, with_clause, without_last};
ghost use Rattle.lk_model.specs.Formulas.Lean.{are_positions};
ghost use Rattle.lk_model.specs.Lists.{rises_within};

use crate::list::{List, OutOfMemory};
use crate::lit::Lit;
use std::alloc::{AllocError, AllocFailed, Global};
use std::marker::Model;

/// How many variables a formula may have.
pub const MAX_VARS: u32 = 1_000_000;

/// How many clauses a formula may have.
pub const MAX_CLAUSES: u32 = 4_000_000;

/// How many literals a formula may have.
pub const MAX_LITERALS: u32 = 20_000_000;

/// Why a formula is not made, or a clause not taken: a limit would be passed, or memory ran out.
#[derive(Clone, Copy, PartialEq, Eq, Debug)]
pub enum FormulaError {
    Limit,
    OutOfMemory,
}

/// A formula in conjunctive normal form (DIMACS CNF 1993): variables from 1 to a number, and clauses
/// over them at positions from 1 on. Equal clauses at two positions are two clauses. It has at most
/// 1,000,000 variables, 4,000,000 clauses and 20,000,000 literals.
#[derive(Drop)]
pub struct Formula {
    vars: u32,
    literals: Vec<Lit>,
    ends: Vec<u32>,
}

impl Model for Formula {
    ghost use Rattle.lk_model.specs.Formulas.Formula.{Cnf};

    ghost Value = { Cnf };

    ghost use Rattle.lk_model.specs.Held.Flat.{formula_of, IsFlat};

    ghost view = { λ f. formula_of f.vars f.literals.items f.ends.items };

    ghost invariant = { λ f. IsFlat f.vars f.literals.items f.ends.items };
}

impl Formula {
    /// The formula of n variables without a clause; the error is `Limit` where n is too great.
    pub fn new(alloc: Global, n: u32) -> Result<Formula, FormulaError>
        ensures ok { IfOk result (λ f. (f.vars ≡ n) × (f.clauses ≡ [])) }
        ensures limit { IsErrOf result FormulaError.Limit ↔ (max_vars < n) }
    {
        if n > MAX_VARS {
            return Err(FormulaError::Limit);
        }
        Ok(Formula {
            vars: n,
            literals: Vec::new(alloc),
            ends: Vec::new(alloc),
        })
    }

    /// The formula of as many variables without a clause.
    pub fn empty(&self, alloc: Global) -> Formula
        ensures value { result ≡ record { vars = self.now.vars; clauses = [] } }
        ensures limits { IsWithinLimits self.now }
    {
        Formula {
            vars: self.vars,
            literals: Vec::new(alloc),
            ends: Vec::new(alloc),
        }
    }

    /// A copy of the formula.
    pub fn copy(&self, alloc: Global) -> Result<Formula, OutOfMemory>
        ensures { IfOk result (λ f. f ≡ self.now) }
    {
        Ok(Formula {
            vars: self.vars,
            literals: Vec::from_slice(alloc, self.literals.as_slice())?,
            ends: Vec::from_slice(alloc, self.ends.as_slice())?,
        })
    }

    /// How many variables it has.
    pub fn vars(&self) -> u32
        ensures value { result ≡ self.now.vars }
        ensures formula { IsTrue (is_formula self.now) }
        ensures limits { IsWithinLimits self.now }
    {
        self.vars
    }

    /// How many clauses it has.
    pub fn len(&self) -> u32
        ensures value { result ≡ length self.now.clauses }
        ensures few { result ≤ max_clauses }
        ensures formula { IsTrue (is_formula self.now) }
        ensures limits { IsWithinLimits self.now }
    {
        self.ends.len() as u32
    }

    /// The clause at a position, as its literals in their order.
    pub fn clause(&self, k: u32) -> &[Lit]
        requires first { 0 < k }
        requires last { k ≤ length self.now.clauses }
        ensures value { result.now ≡ clause_at self.now k }
        ensures clause { IsTrue (is_clause self.now.vars result.now) }
    {
        list_at(&self.literals, &self.ends, k as usize - 1)
    }

    /// Whether one more clause, with this number of literals, passes no limit.
    pub fn has_room(&self, literals: usize) -> bool
        ensures limit { IsFalse result
            ↔ ((max_clauses ≤ length self.now.clauses) ⊎ (max_literals < literal_count self.now + literals)) }
        ensures room { OnTrue result ((length self.now.clauses < max_clauses) ×
            (literal_count self.now + literals ≤ max_literals)) }
    {
        self.ends.len() < MAX_CLAUSES as usize
            && literals <= MAX_LITERALS as usize - self.literals.len()
    }

    /// Appends a clause over the variables in which no literal stands twice. The error is `Limit` where
    /// there are too many clauses or literals then. After an error the formula is as it was.
    pub fn push_clause(&mut self, lits: &[Lit]) -> Result<(), FormulaError>
        requires { IsTrue (is_clause self.old.vars lits.now) }
        ensures ok { OnOk result (self.new ≡ with_clause self.old lits.now) }
        ensures err { OnErr result (self.new ≡ self.old) }
        ensures limit { IsErrOf result FormulaError.Limit
            ↔ ((max_clauses ≤ length self.old.clauses) ⊎ (max_literals < literal_count self.old + length lits.now)) }
    {
        if !self.has_room(lits.len()) {
            return Err(FormulaError::Limit);
        }
        self.push_within(lits)?;
        Ok(())
    }

    /// Appends a clause, as `push_clause` does, for which the limits leave room. Without memory for it
    /// the formula stays as it is.
    pub fn push_within(&mut self, lits: &[Lit]) -> Result<(), OutOfMemory>
        requires clause { IsTrue (is_clause self.old.vars lits.now) }
        requires clauses { length self.old.clauses < max_clauses }
        requires literals { literal_count self.old + length lits.now ≤ max_literals }
        ensures ok { OnOk result (self.new ≡ with_clause self.old lits.now) }
        ensures err { OnErr result (self.new ≡ self.old) }
    {
        self.ends.reserve(1)?;
        self.literals.extend_from_slice(lits)?;
        self.ends.push(self.literals.len() as u32)?;
        Ok(())
    }

    /// Takes the last clause off.
    pub fn pop_clause(&mut self)
        requires { 0 < length self.old.clauses }
        ensures { self.new ≡ without_last self.old }
    {
        let last = self.ends.len() - 1;
        let begin = begin_at(&self.ends, last, self.literals.len());
        self.ends.truncate(last);
        self.literals.truncate(begin);
    }

    /// The clauses at positions of the formula, over the same variables.
    pub fn clauses_at(&self, alloc: Global, positions: &[u32]) -> Result<Formula, OutOfMemory>
        requires { IsTrue (are_positions self.now positions.now) }
        ensures { IfOk result (λ f. f ≡ clauses_at self.now positions.now) }
    {
        let mut clauses = self.empty(alloc);
        for p in positions {
            clauses.push_within(self.clause(*p))?;
        }
        Ok(clauses)
    }

    /// Whether these are positions of the formula, ascending.
    pub fn has_part(&self, part: &[u32]) -> bool
        ensures { result ≡ are_positions self.now part.now }
    {
        rise_within(self.len(), part)
    }

    /// All positions, from 1 to the number of clauses.
    pub fn positions(&self, alloc: Global) -> Result<List<u32>, OutOfMemory>
        ensures value { IfOk result (λ ps. ps ≡ positions_of self.now) }
        ensures part { IfOk result (λ ps. IsTrue (are_positions self.now ps)) }
    {
        let mut positions = List::new(alloc);
        for k in 0..self.len() {
            positions.push(k + 1)?;
        }
        Ok(positions)
    }
}

/// Whether the numbers rise, from 1 at least to the last at most, as positions and variables do where they
/// are listed.
pub fn rise_within(last: u32, numbers: &[u32]) -> bool
    ensures { result ≡ rises_within 0 last numbers.now }
{
    let mut low = 0;
    for n in numbers {
        if *n <= low || *n > last {
            return false;
        }
        low = *n;
    }
    true
}

impl From<OutOfMemory> for FormulaError {
    ghost use Rattle.std.specs.Prelude.{◌≡◌};
    ghost use Rattle.lk_model.specs.declared.formula.FormulaError.TheVariants.{OutOfMemory as MemoryOut};

    ghost from_gives = { λ _ e. e ≡ MemoryOut };

    fn from(_e: OutOfMemory) -> FormulaError {
        FormulaError::OutOfMemory
    }
}

impl From<AllocError> for FormulaError {
    ghost use Rattle.std.specs.Prelude.{◌≡◌};
    ghost use Rattle.lk_model.specs.declared.formula.FormulaError.TheVariants.{OutOfMemory};

    ghost from_gives = { λ _ e. e ≡ OutOfMemory };

    fn from(_e: AllocError) -> FormulaError {
        FormulaError::OutOfMemory
    }
}

impl<T: Drop> From<AllocFailed<T>> for FormulaError {
    ghost use Rattle.std.specs.Prelude.{◌≡◌};
    ghost use Rattle.lk_model.specs.declared.formula.FormulaError.TheVariants.{OutOfMemory};

    ghost from_gives = { λ _ e. e ≡ OutOfMemory };

    fn from(_e: AllocFailed<T>) -> FormulaError {
        FormulaError::OutOfMemory
    }
}

// One of the lists that are kept one after another.
fn list_at<'a>(literals: &'a [Lit], ends: &[u32], k: usize) -> &'a [Lit]
    requires ends { AreEnds 0 ends.now (length literals.now) }
    requires place { k < length ends.now }
    ensures { result.now ≡ slice_index_or (cut 0 literals.now ends.now) k [] }
{
    let begin = begin_at(ends, k, literals.len());
    &literals[begin..ends[k] as usize]
}

// Where it begins.
fn begin_at(ends: &[u32], k: usize, stop: usize) -> usize
    requires ends { AreEnds 0 ends.now stop }
    requires place { k < length ends.now }
    ensures value { result ≡ begin_of 0 ends.now k }
    ensures order { result ≤ slice_index ends.now k }
    ensures within { slice_index ends.now k ≤ stop }
{
    if k == 0 { 0 } else { ends[k - 1] as usize }
}
