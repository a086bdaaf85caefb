//! A clause that grows.
ghost use Rattle.std.specs.Prelude.{◌≡◌, ◌++◌, ◌∷◌, [], ◌+◌, ◌≤◌, ◌<◌, length, OnOk, OnErr, IfOk, IsTrue, false};
ghost use Rattle.lk_model.specs.Formulas.Literal.{contains, is_clause, is_literal};
ghost use Rattle.lk_model.specs.Limits.{max_vars};
ghost use Rattle.lk_model.specs.Held.Growing.{AreFlagged, IsHeld};

use crate::list::OutOfMemory;
use crate::lit::{Lit, stands_in};
use crate::lit_table::LitTable;
use std::alloc::Global;
use std::marker::Model;

// A clause of up to this many literals is searched: a flag lies at a random place in memory, and most
// clauses are short.
const SEARCHED: usize = 16;

/// A clause that grows by one literal after the other, over the variables from 1 to n. While it is
/// short, a repeat is found by going through it; past that, a flag for each literal tells whether the
/// clause contains it.
#[derive(Drop)]
pub struct OpenClause {
    vars: u32,
    literals: Vec<Lit>,
    // this many of the literals, from the first on, have their flags up, and no other literal has
    flagged: usize,
    flags: LitTable<bool>,
}

impl Model for OpenClause {
    ghost use Rattle.lk_model.specs.Held.Growing.{Growing, IsHeld};

    ghost Value = { Growing };

    ghost view = { λ c. record { vars = c.vars; literals = c.literals.items } };

    ghost invariant = { λ c. IsHeld c.vars c.literals.items c.flagged c.flags };
}

impl OpenClause {
    /// The clause without a literal.
    pub fn new(alloc: Global, vars: u32) -> Result<OpenClause, OutOfMemory>
        requires { vars ≤ max_vars }
        ensures { IfOk result (λ c. c ≡ record { vars = vars; literals = [] }) }
    {
        Ok(OpenClause {
            vars,
            literals: Vec::new(alloc),
            flagged: 0,
            flags: LitTable::new(alloc, vars, false)?,
        })
    }

    /// The number of variables.
    pub fn vars(&self) -> u32
        ensures value { result ≡ self.now.vars }
        ensures small { result ≤ max_vars }
    {
        self.vars
    }

    /// The literals, in the order in which they came.
    pub fn literals(&self) -> &[Lit]
        ensures value { result.now ≡ self.now.literals }
        ensures clause { IsTrue (is_clause self.now.vars result.now) }
    {
        self.literals.as_slice()
    }

    /// Whether the clause contains the literal.
    pub fn holds(&self, l: Lit) -> bool
        requires { IsTrue (is_literal self.now.vars l) }
        ensures { result ≡ contains self.now.literals l }
    {
        if self.flagged == 0 {
            return stands_in(&self.literals, l);
        }
        self.flags[l] || stands_in(&self.literals[self.flagged..], l)
    }

    /// Adds a literal that the clause does not contain. Without memory for it the clause stays as it is.
    pub fn push(&mut self, l: Lit) -> Result<(), OutOfMemory>
        requires literal { IsTrue (is_literal self.old.vars l) }
        requires absent { contains self.old.literals l ≡ false }
        ensures ok { OnOk result (self.new ≡ record { vars = self.old.vars; literals = self.old.literals ++ l ∷ [] }) }
        ensures err { OnErr result (self.new ≡ self.old) }
    {
        self.literals.push(l)?;
        if self.literals.len() > SEARCHED {
            self.flagged = flag_all(self.vars, &self.literals, self.flagged, &mut self.flags);
        }
        Ok(())
    }

    /// Takes all literals out.
    pub fn clear(&mut self)
        ensures empty { self.new ≡ record { vars = self.old.vars; literals = [] } }
        ensures small { self.new.vars ≤ max_vars }
    {
        self.literals.truncate(self.flagged);
        take_all(self.vars, &mut self.literals, &mut self.flags);
        self.flagged = 0;
    }
}

/// Puts up the flags of the literals from one on, where those before it have theirs up. How many there
/// are then.
fn flag_all(vars: u32, literals: &[Lit], flagged: usize, flags: &mut LitTable<bool>) -> usize
    requires { IsHeld vars literals.now flagged flags.old }
    ensures all { result ≡ length literals.now }
    ensures held { IsHeld vars literals.now result flags.new }
{
    for i in flagged..literals.len() {
        flags[literals[i]] = true;
    }
    literals.len()
}

/// Takes the literals out, from the last to the first, and their flags down.
fn take_all(vars: u32, literals: &mut Vec<Lit>, flags: &mut LitTable<bool>)
    requires { AreFlagged vars literals.old.items flags.old }
    ensures empty { literals.new.items ≡ [] }
    ensures flagged { AreFlagged vars [] flags.new }
{
    while let Some(l) = literals.pop() {
        flags[l] = false;
    }
}
