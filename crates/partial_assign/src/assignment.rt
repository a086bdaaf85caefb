//! Partial assignments.
ghost use Rattle.std.specs.Prelude.{◌≡◌, ◌≢◌, ◌<◌, ◌≤◌, ◌↔◌, ℕ, None, IfOk, IfSome, IsNone, IsTrue, length, replicate};
ghost use Rattle.std.specs.List.{list_all};
ghost use Rattle.lk_model.specs.Formulas.Literal.{is_literal, is_positive, variable};
ghost use Rattle.lk_model.specs.Held.PartialValues.{assignment_by, with_true};
ghost use Rattle.lk_model.specs.Formulas.Assignment.{first_unsatisfied, makes_true, satisfies, touches};
ghost use Rattle.lk_model.specs.Formulas.Autarky.{IsAutarky};
ghost use Rattle.lk_model.specs.Formulas.Lean.{all_of};
ghost use Rattle.lk_model.specs.Formulas.Minimal.{with_made_true};

use lk_model::{Formula, Lit, OutOfMemory};
use std::alloc::Global;
use std::marker::Model;

/// A partial assignment of the variables from 1 to n, of which there are 1,000,000 at most: each is
/// true, false or unset. Contracts see the list of the values of 1, 2, and so on, with `None` for a
/// variable that is unset.
///
/// It is an autarky of a formula (Handbook of Satisfiability, Kleine Büning and Kullmann) where it
/// satisfies each clause that it touches.
#[derive(Drop)]
pub struct Partial {
    values: Vec<Option<bool>>,
}

impl Model for Partial {
    ghost use Rattle.std.specs.Prelude.{◌≤◌, List, Option, Bool, length};

    ghost Value = { List (Option Bool) };

    ghost view = { λ p. p.values.items };

    ghost invariant = { λ p. length p.values.items ≤ 1000000 };
}

impl Partial {
    /// The assignment of the variables from 1 to n that sets none of them.
    pub fn new(alloc: Global, n: u32) -> Result<Partial, OutOfMemory>
        requires { n ≤ 1000000 }
        ensures { IfOk result (λ p. p ≡ replicate n None) }
    {
        Ok(Partial {
            values: vec![in alloc; None; n as usize]?,
        })
    }

    /// A copy of the assignment. It takes the memory of the result alone.
    pub fn copy(&self, alloc: Global) -> Result<Partial, OutOfMemory>
        ensures { IfOk result (λ p. p ≡ self.now) }
    {
        Ok(Partial {
            values: Vec::from_slice(alloc, self.values.as_slice())?,
        })
    }

    /// The number n of its variables, set or not.
    pub fn vars(&self) -> u32
        ensures value { result ≡ length self.now }
        ensures greatest { result ≤ 1000000 }
    {
        self.values.len() as u32
    }

    /// Makes a literal true whose variable is unset: the DIMACS number v sets the variable v to
    /// true, and -v sets it to false. It takes no memory.
    pub fn put(&mut self, l: Lit)
        requires literal { IsTrue (is_literal (length self.old) l) }
        requires unset { assignment_by self.old (variable l) ≡ None }
        ensures value { self.new ≡ with_true self.old l }
        ensures vars { length self.new ≡ length self.old }
        ensures set { assignment_by self.new (variable l) ≡ Some (is_positive l) }
        ensures others { (v : ℕ) → v ≢ variable l
            → assignment_by self.new v ≡ assignment_by self.old v }
    {
        self.make_true(l);
    }

    /// Makes a literal true, whatever value its variable had. It takes no memory.
    pub fn make_true(&mut self, l: Lit)
        requires { IsTrue (is_literal (length self.old) l) }
        ensures value { self.new ≡ with_true self.old l }
        ensures vars { length self.new ≡ length self.old }
        ensures assignment { (v : ℕ) → assignment_by self.new v ≡ with_made_true (assignment_by self.old) l v }
    {
        self.values[l.var() as usize - 1] = Some(l.positive());
    }

    /// The value of a variable, where it is set.
    pub fn value(&self, v: u32) -> Option<bool>
        requires first { 0 < v }
        requires last { v ≤ length self.now }
        ensures { result ≡ assignment_by self.now v }
    {
        self.values[v as usize - 1]
    }

    /// Whether a variable of the clause is set.
    pub fn touches(&self, clause: &[Lit]) -> bool
        requires { IsTrue (list_all (is_literal (length self.now)) clause.now) }
        ensures { result ≡ touches (assignment_by self.now) clause.now }
    {
        clause.iter().any(|l| self.value(l.var()).is_some())
    }

    /// Whether a literal of the clause is true.
    pub fn satisfies(&self, clause: &[Lit]) -> bool
        requires { IsTrue (list_all (is_literal (length self.now)) clause.now) }
        ensures { result ≡ satisfies (assignment_by self.now) clause.now }
    {
        clause.iter().any(|l| self.makes_true(*l))
    }

    /// The least position, counted from 1, whose clause is touched and not satisfied. There is none
    /// exactly where the assignment is an autarky of the whole formula. It takes no memory.
    pub fn first_unsatisfied_touched(&self, f: &Formula) -> Option<u32>
        requires { f.now.vars ≡ length self.now }
        ensures value { result ≡ first_unsatisfied (assignment_by self.now) f.now }
        ensures position { IfSome result (λ k. (0 < k) × (k ≤ length f.now.clauses)) }
        ensures autarky { IsNone result ↔ IsAutarky f.now (all_of f.now) (assignment_by self.now) }
    {
        (1..f.len() + 1).find(|k| {
            let clause = f.clause(*k);
            self.touches(clause) && !self.satisfies(clause)
        })
    }

    /// Whether the literal is true.
    fn makes_true(&self, l: Lit) -> bool
        requires { IsTrue (is_literal (length self.now) l) }
        ensures { result ≡ makes_true (assignment_by self.now) l }
    {
        self.value(l.var()) == Some(l.positive())
    }
}
