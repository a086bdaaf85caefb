//! Sets of literals.
ghost use Rattle.std.specs.Prelude.{◌≡◌, ◌<◌, ◌≤◌, ◌++◌, [], ℕ, ℤ, List, true, length, IfOk, IsTrue, All};
ghost use Rattle.std.specs.List.{list_all, list_any};
ghost use Rattle.lk_model.specs.Formulas.Literal.{is_literal, rank_of};
ghost use Rattle.check_tables.specs.LiteralSets.{has_literal, with_literal, without_literal, less, IsSetOf};

use check_places::has_any;
use lk_model::{Lit, LitTable, OutOfMemory};
use std::alloc::Global;
use std::marker::Model;

/// A set of literals over the variables from 1 to a number, by a flag for each literal. Contracts see the
/// flags, each at the rank of its literal.
#[derive(Drop)]
pub struct LiteralSet {
    flags: LitTable<bool>,
}

impl Model for LiteralSet {
    ghost use Rattle.std.specs.Prelude.{List, Bool};

    ghost Value = { List Bool };

    ghost view = { λ s. s.flags };
}

impl LiteralSet {
    /// The empty set of literals over the variables from 1 to n. The error says that memory ran out.
    pub fn new(alloc: Global, n: u32) -> Result<LiteralSet, OutOfMemory>
        requires { n ≤ 1000000 }
        ensures { IfOk result (IsSetOf n []) }
    {
        Ok(LiteralSet {
            flags: LitTable::new(alloc, n, false)?,
        })
    }

    /// The set of some literals over the variables from 1 to n. The error says that memory ran out.
    pub fn of(alloc: Global, n: u32, literals: &[Lit]) -> Result<LiteralSet, OutOfMemory>
        requires small { n ≤ 1000000 }
        requires literals { IsTrue (list_all (is_literal n) literals.now) }
        ensures { IfOk result (IsSetOf n literals.now) }
    {
        let mut set = LiteralSet::new(alloc, n)?;
        for l in literals {
            set.add(*l);
        }
        Ok(set)
    }

    /// Puts a literal in.
    pub fn add(&mut self, l: Lit)
        requires { rank_of l < length self.old }
        ensures { self.new ≡ with_literal self.old l }
    {
        self.flags[l] = true;
    }

    /// Puts literals in.
    pub fn add_all(&mut self, literals: &[Lit])
        requires { All (λ l. rank_of l < length self.old) literals.now }
        ensures size { length self.new ≡ length self.old }
        ensures added { (n : ℕ) (c : List ℤ) → list_all (is_literal n) literals.now ≡ true → IsSetOf n c self.old →
            IsSetOf n (c ++ literals.now) self.new }
    {
        for l in literals {
            self.add(*l);
        }
    }

    /// Takes a literal out.
    pub fn remove(&mut self, l: Lit)
        requires { rank_of l < length self.old }
        ensures { self.new ≡ without_literal self.old l }
    {
        self.flags[l] = false;
    }

    /// Takes literals out.
    pub fn remove_all(&mut self, literals: &[Lit])
        requires { All (λ l. rank_of l < length self.old) literals.now }
        ensures size { length self.new ≡ length self.old }
        ensures removed { (n : ℕ) (c : List ℤ) → list_all (is_literal n) literals.now ≡ true → IsSetOf n c self.old →
            IsSetOf n (less c literals.now) self.new }
    {
        for l in literals {
            self.remove(*l);
        }
    }

    /// Whether it has a literal.
    pub fn has(&self, l: Lit) -> bool
        requires { rank_of l < length self.now }
        ensures { result ≡ has_literal self.now l }
    {
        self.flags[l]
    }

    /// Whether it has each of these literals.
    pub fn has_all(&self, literals: &[Lit]) -> bool
        requires { All (λ l. rank_of l < length self.now) literals.now }
        ensures { result ≡ list_all (has_literal self.now) literals.now }
    {
        literals.iter().all(|l| self.has(*l))
    }

    /// Whether it has one of these literals.
    pub fn has_any(&self, literals: &[Lit]) -> bool
        requires { All (λ l. rank_of l < length self.now) literals.now }
        ensures { result ≡ list_any (has_literal self.now) literals.now }
    {
        has_any(&self.flags, literals)
    }
}
