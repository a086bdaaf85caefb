//! How many clauses contain each literal.
ghost use Rattle.std.specs.Prelude.{◌≡◌, ◌+◌, ◌*◌, ◌<◌, ◌≤◌, ℕ, length, Contains, IfSome, IfNone, OnOk, OnErr, IsTrue};
ghost use Rattle.std.specs.Prelude.{Some, None, false};
ghost use Rattle.lk_model.specs.Formulas.Literal.{is_literal};
ghost use Rattle.pure_strip.specs.Counted.{count_of, is_lone_variable, lone_of, lowered, least_lone, AreStill};
ghost use Rattle.pure_strip.specs.Counted.{IsFirstLone};

use crate::least_first::LeastFirst;
use lk_model::{Lit, LitTable, OutOfMemory};
use std::alloc::Global;
use std::marker::Model;

/// How many of some clauses contain each literal over the variables from 1 to n. Beside the numbers there
/// stands where the variables that occur in one sign only are, so that the least of them is found at once:
/// each is at least `next`, or it came to be one once `next` had passed it, and stands in `back`.
#[derive(Drop)]
pub(crate) struct Counts {
    vars: u32,
    counts: LitTable<u32>,
    next: u32,
    back: LeastFirst,
}

impl Model for Counts {
    ghost use Rattle.pure_strip.specs.Counted.{Counted, AreLone};

    ghost Value = { Counted };

    ghost view = { λ c. record { vars = c.vars; counts = c.counts } };

    ghost invariant = { λ c. AreLone c.vars c.counts c.next c.back };
}

impl Counts {
    /// These numbers.
    pub fn new(alloc: Global, vars: u32, counts: LitTable<u32>) -> Counts
        requires small { vars ≤ 1000000 }
        requires size { length counts ≡ 2 * vars + 2 }
        ensures { result ≡ record { vars = vars; counts = counts } }
    {
        Counts {
            vars,
            counts,
            next: 1,
            back: LeastFirst::new(alloc),
        }
    }

    /// Counts one clause less that contains the literal. Without memory nothing changes.
    pub fn lower(&mut self, l: Lit) -> Result<(), OutOfMemory>
        requires literal { IsTrue (is_literal self.old.vars l) }
        requires held { 0 < count_of self.old.counts l }
        ensures ok { OnOk result (self.new ≡ lowered self.old l) }
        ensures err { OnErr result (self.new ≡ self.old) }
    {
        let remaining = self.counts[l] - 1;
        if remaining == 0 && l.var() < self.next && self.counts[l.negated()] != 0 {
            self.back.push(l.var())?;
        }
        self.counts[l] = remaining;
        Ok(())
    }

    /// The literal that occurs, of the least variable that occurs in one sign only.
    pub fn least_lone(&mut self) -> Option<Lit>
        ensures value { result ≡ least_lone self.old }
        ensures same { self.new ≡ self.old }
    {
        match first_lone(&mut self.back, &self.counts) {
            Some(l) => Some(l),
            None => next_lone(&mut self.next, self.vars, &self.counts),
        }
    }
}

/// The literal of the least of some variables that occurs in one sign only. Lesser ones are dropped.
fn first_lone(back: &mut LeastFirst, counts: &LitTable<u32>) -> Option<Lit>
    requires within { (v : ℕ) → Contains back.old v → (0 < v) × (v ≤ 1000000) × (2 * v + 1 < length counts.now) }
    ensures still { AreStill counts.now back.old back.new }
    ensures found { IsFirstLone counts.now back.new result }
{
    while let Some(v) = back.least() {
        match lone_literal(counts, v) {
            Some(l) => return Some(l),
            None => back.drop_least(),
        }
    }
    None
}

/// The literal of the first variable from `next` on that occurs in one sign only. `next` moves there.
fn next_lone(next: &mut u32, vars: u32, counts: &LitTable<u32>) -> Option<Lit>
    requires small { vars ≤ 1000000 }
    requires size { length counts.now ≡ 2 * vars + 2 }
    requires first { 0 < next.old }
    requires last { next.old ≤ vars + 1 }
    ensures onward { next.old ≤ next.new }
    ensures last { next.new ≤ vars + 1 }
    ensures passed { (v : ℕ) → next.old ≤ v → v < next.new → is_lone_variable counts.now v ≡ false }
    ensures some { IfSome result (λ l. (next.new ≤ vars) × (lone_of counts.now next.new ≡ Some l)) }
    ensures none { IfNone result (next.new ≡ vars + 1) }
{
    while *next <= vars {
        match lone_literal(counts, *next) {
            Some(l) => return Some(l),
            None => *next += 1,
        }
    }
    None
}

/// The literal that occurs, of a variable that occurs in one sign only.
fn lone_literal(counts: &LitTable<u32>, v: u32) -> Option<Lit>
    requires first { 0 < v }
    requires last { v ≤ 1000000 }
    requires within { 2 * v + 1 < length counts.now }
    ensures { result ≡ lone_of counts.now v }
{
    let l = Lit::from_var(v, true);
    let other = l.negated();
    if counts[l] == 0 {
        if counts[other] == 0 {
            None
        } else {
            Some(other)
        }
    } else if counts[other] == 0 {
        Some(l)
    } else {
        None
    }
}
