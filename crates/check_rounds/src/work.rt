//! The clause that a chain has so far.
//!
//! A flag for each literal tells whether the clause holds it, and a list has all literals that it ever held, so that
//! the flags are given back clean in the time of the chain. So a turn takes the time of the clause that it names.
ghost use Rattle.std.specs.Prelude.{◌≡◌, ◌≤◌, ◌<◌, ◌+◌, ◌*◌, ◌++◌, ◌∷◌, ◌&&◌, not, [], true, ℕ, ℤ, List, All, length};
ghost use Rattle.std.specs.Prelude.{IfOk, OnOk, IsTrue};
ghost use Rattle.std.specs.List.{list_all, list_any};
ghost use Rattle.std.specs.Ordering.{int_eq};
ghost use Rattle.lk_model.specs.Formulas.Literal.{is_literal, is_same_set, rank_of, variable};
ghost use Rattle.lk_model.specs.Formulas.Crossed.{crossed_out};
ghost use Rattle.lk_model.specs.Chains.Chain.{without};
ghost use Rattle.check_rounds.specs.Blocking.{is_before};
ghost use Rattle.check_rounds.specs.Chains.{IsWork};
ghost use Rattle.check_tables.specs.LiteralSets.{has_literal};

use crate::blocking::is_before;
use check_tables::LiteralSet;
use lk_model::{Lit, OutOfMemory};
use std::alloc::Global;

/// The literals of a clause over the variables from 1 to n.
#[derive(Drop)]
pub(crate) struct Work {
    flags: LiteralSet,
    literals: Vec<Lit>,
}

impl Work {
    /// The empty clause over the variables from 1 to n.
    pub fn new(alloc: Global, n: u32) -> Result<Work, OutOfMemory>
        requires { n ≤ 1000000 }
        ensures { IfOk result (IsWork n []) }
    {
        Ok(Work {
            flags: LiteralSet::new(alloc, n)?,
            literals: Vec::new(alloc),
        })
    }

    /// Whether it holds a literal.
    pub fn has(&self, l: Lit) -> bool
        requires { rank_of l < length self.now.flags }
        ensures { result ≡ has_literal self.now.flags l }
    {
        self.flags.has(l)
    }

    /// Puts a literal in.
    fn add(&mut self, l: Lit) -> Result<(), OutOfMemory>
        requires { rank_of l < length self.old.flags }
        ensures size { OnOk result (length self.new.flags ≡ length self.old.flags) }
        ensures added { OnOk result ((n : ℕ) (c : List ℤ) → is_literal n l ≡ true → IsWork n c self.old →
            IsWork n (c ++ l ∷ []) self.new) }
    {
        if !self.flags.has(l) {
            self.literals.push(l)?;
            self.flags.add(l);
        }
        Ok(())
    }

    /// Takes a literal out.
    pub fn remove(&mut self, l: Lit)
        requires { rank_of l < length self.old.flags }
        ensures size { length self.new.flags ≡ length self.old.flags }
        ensures removed { (n : ℕ) (c : List ℤ) → is_literal n l ≡ true → IsWork n c self.old →
            IsWork n (without c l) self.new }
    {
        self.flags.remove(l);
    }

    /// Puts the literals of a clause in that are not on variables blocked before the round k.
    pub fn add_all(
        &mut self,
        n: u32,
        k: usize,
        blocks: &[usize],
        clause: &[Lit],
    ) -> Result<(), OutOfMemory>
        requires clause { IsTrue (list_all (is_literal n) clause.now) }
        requires blocks { length blocks.now ≡ n }
        requires size { length self.old.flags ≡ 2 * n + 2 }
        ensures { OnOk result ((c : List ℤ) → IsWork n c self.old →
            IsWork n (c ++ crossed_out (is_before k blocks.now) clause.now) self.new) }
    {
        for l in clause {
            if !is_before(k, blocks, l.var()) {
                self.add(*l)?;
            }
        }
        Ok(())
    }

    /// Puts the literals of a clause in that are not on variables blocked before the round k, but one.
    pub fn add_others(
        &mut self,
        n: u32,
        k: usize,
        blocks: &[usize],
        clause: &[Lit],
        but: Lit,
    ) -> Result<(), OutOfMemory>
        requires clause { IsTrue (list_all (is_literal n) clause.now) }
        requires blocks { length blocks.now ≡ n }
        requires size { length self.old.flags ≡ 2 * n + 2 }
        ensures { OnOk result ((c : List ℤ) → IsWork n c self.old
            → IsWork n (c ++ without (crossed_out (is_before k blocks.now) clause.now) but) self.new) }
    {
        for l in clause {
            if is_left(k, blocks, *l, but) {
                self.add(*l)?;
            }
        }
        Ok(())
    }

    /// Whether it holds the literals of a clause and no others. Afterwards it holds other literals.
    pub fn is_clause(&mut self, n: u32, clause: &[Lit]) -> bool
        requires clause { IsTrue (list_all (is_literal n) clause.now) }
        requires work { (c : List ℤ) × IsWork n c self.old }
        ensures same { (c : List ℤ) → IsWork n c self.old → result ≡ is_same_set clause.now c }
        ensures work { (c : List ℤ) × IsWork n c self.new }
    {
        if !self.flags.has_all(clause) {
            return false;
        }
        self.flags.remove_all(clause);
        self.is_empty()
    }

    /// Whether it holds no literal.
    fn is_empty(&self) -> bool
        requires { All (λ l. rank_of l < length self.now.flags) self.now.literals.items }
        ensures { result ≡ not (list_any (has_literal self.now.flags) self.now.literals.items) }
    {
        !self.flags.has_any(&self.literals)
    }

    /// Makes it the empty clause.
    pub fn clear(&mut self)
        requires { All (λ l. rank_of l < length self.old.flags) self.old.literals.items }
        ensures { (n : ℕ) (c : List ℤ) → IsWork n c self.old → IsWork n [] self.new }
    {
        self.flags.remove_all(&self.literals);
        self.literals.clear();
    }
}

/// Whether a literal is another one, and its variable is not blocked before the round k.
fn is_left(k: usize, blocks: &[usize], l: Lit, but: Lit) -> bool
    requires { IsTrue (is_literal (length blocks.now) l) }
    ensures { result ≡ (not (int_eq l but) && not (is_before k blocks.now (variable l))) }
{
    l != but && !is_before(k, blocks, l.var())
}
