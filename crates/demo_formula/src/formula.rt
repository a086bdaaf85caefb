//! The formula of a number.
ghost use Rattle.std.specs.Prelude.{◌≡◌, ◌+◌, ◌*◌, ◌<◌, ◌≤◌, ◌≢◌, [], ◌∷◌, ◌++◌, length, OnOk, IfOk, IsTrue};
ghost use Rattle.lk_model.specs.Formulas.Literal.{is_clause, is_literal, variable};
ghost use Rattle.demo_formula.specs.Demo.{clauses_of_pair, first_clauses, drawn_clauses, demo_formula};
ghost use Rattle.demo_formula.specs.Sizes.{IsSmall};

use crate::draw::draw_clause;
use lk_model::{Formula, FormulaError, Lit, OutOfMemory};
use rand_pcg::Lcg64Xsh32;
use std::alloc::Global;

/// How many variables the formula has.
const VARS: u32 = 2200;

/// How many pairs of variables have all their clauses.
const PAIRS: u32 = 100;

/// How many clauses are drawn.
const DRAWN: u32 = 6000;

/// The formula of a number: 2,200 variables and 6,400 clauses. The first 400 are, for i from 1 to 100, the four
/// clauses over the variables 2i - 1 and 2i. Each of the others is drawn from five words of the generator PCG XSH
/// RR 64/32 (O'Neill, "PCG: a family of simple fast space-efficient statistically good algorithms for random number
/// generation") with the number as its state and stream 1: the literal 201 + (first word mod 2000); then one on the
/// variable 1 + (second word mod 2200), negative where the third word is odd; then one by the fourth and the fifth
/// word in the same way. A literal on a variable that the clause already has is dropped.
pub fn demo_formula(alloc: Global, seed: u64) -> Result<Formula, OutOfMemory>
    ensures value { IfOk result (λ f. f ≡ demo_formula seed) }
    ensures vars { IfOk result (λ f. f.vars ≡ 2200) }
    ensures clauses { IfOk result (λ f. length f.clauses ≡ 6400) }
{
    let mut formula = no_clauses(alloc)?;
    put_first(&mut formula)?;
    put_drawn(alloc, &mut formula, Lcg64Xsh32::new(seed, 1))?;
    Ok(formula)
}

/// The formula without a clause.
fn no_clauses(alloc: Global) -> Result<Formula, OutOfMemory>
    ensures none { IfOk result (λ f. f.clauses ≡ []) }
    ensures small { IfOk result IsSmall }
{
    match Formula::new(alloc, VARS) {
        Ok(formula) => Ok(formula),
        Err(FormulaError::Limit) => unreachable!(),
        Err(FormulaError::OutOfMemory) => Err(OutOfMemory),
    }
}

/// Appends the clauses over the pairs of the first 200 variables.
fn put_first(formula: &mut Formula) -> Result<(), OutOfMemory>
    requires none { formula.old.clauses ≡ [] }
    requires small { IsSmall formula.old }
    ensures value { OnOk result (formula.new.clauses ≡ first_clauses 100) }
    ensures size { OnOk result (length formula.new.clauses ≡ 400) }
    ensures small { OnOk result (IsSmall formula.new) }
{
    for i in 0..PAIRS {
        put_pair(formula, i + 1)?;
    }
    Ok(())
}

/// Appends the four clauses over the two variables of a pair, counted from 1.
fn put_pair(formula: &mut Formula, i: u32) -> Result<(), OutOfMemory>
    requires first { 1 ≤ i }
    requires last { i ≤ 100 }
    requires small { IsSmall formula.old }
    requires room { length formula.old.clauses ≤ 400 }
    ensures value { OnOk result (formula.new.clauses ≡ formula.old.clauses ++ clauses_of_pair i) }
    ensures small { OnOk result (IsSmall formula.new) }
{
    let a = Lit::from_var(2 * i - 1, true);
    let b = Lit::from_var(2 * i, true);
    put_two(formula, a, b)?;
    put_two(formula, a, b.negated())?;
    put_two(formula, a.negated(), b)?;
    put_two(formula, a.negated(), b.negated())
}

/// Appends a clause of two literals on two variables.
fn put_two(formula: &mut Formula, k: Lit, l: Lit) -> Result<(), OutOfMemory>
    requires first { IsTrue (is_literal 2200 k) }
    requires second { IsTrue (is_literal 2200 l) }
    requires others { variable k ≢ variable l }
    requires small { IsSmall formula.old }
    requires room { length formula.old.clauses < 6400 }
    ensures value { OnOk result (formula.new.clauses ≡ formula.old.clauses ++ (k ∷ l ∷ []) ∷ []) }
    ensures small { OnOk result (IsSmall formula.new) }
{
    put(formula, &[k, l])
}

/// Appends the drawn clauses.
fn put_drawn(alloc: Global, formula: &mut Formula, words: Lcg64Xsh32) -> Result<(), OutOfMemory>
    requires small { IsSmall formula.old }
    requires room { length formula.old.clauses ≡ 400 }
    ensures value { OnOk result (formula.new.clauses ≡ formula.old.clauses ++ drawn_clauses 6000 words) }
    ensures size { OnOk result (length formula.new.clauses ≡ 6400) }
    ensures small { OnOk result (IsSmall formula.new) }
{
    let mut words = words;
    for _ in 0..DRAWN {
        let clause = draw_clause(alloc, &mut words)?;
        put(formula, clause.as_slice())?;
    }
    Ok(())
}

/// Appends a clause.
fn put(formula: &mut Formula, clause: &[Lit]) -> Result<(), OutOfMemory>
    requires clause { IsTrue (is_clause 2200 clause.now) }
    requires short { length clause.now ≤ 3 }
    requires small { IsSmall formula.old }
    requires room { length formula.old.clauses < 6400 }
    ensures value { OnOk result (formula.new.clauses ≡ formula.old.clauses ++ clause.now ∷ []) }
    ensures small { OnOk result (IsSmall formula.new) }
{
    formula.push_within(clause)
}
