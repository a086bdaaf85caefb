//! Clauses and sets of variables from numbers.
ghost use Rattle.std.specs.Prelude.{◌≡◌, length, IfOk};

use lk_model::{Formula, Lit, VarSet, makes_clause};
use std::alloc::Global;
use std::test::Fail;

/// Appends the literal of a number.
pub(crate) fn push_literal(lits: &mut Vec<Lit>, number: i32) -> Result<(), Fail> {
    match Lit::new(number) {
        Some(l) => Ok(lits.push(l)?),
        None => Err(Fail::from("no literal")),
    }
}

/// Appends the literals, where they make a clause.
pub fn push(formula: &mut Formula, clause: &[Lit]) -> Result<(), Fail>
    ensures { formula.new.vars ≡ formula.old.vars }
{
    if !makes_clause(formula.vars(), clause) {
        return Err(Fail::from("no clause"));
    }
    formula.push_clause(clause)?;
    Ok(())
}

/// Appends the clause of these numbers.
pub fn append(alloc: Global, formula: &mut Formula, numbers: &[i32]) -> Result<(), Fail>
    ensures { formula.new.vars ≡ formula.old.vars }
{
    let mut lits = Vec::new(alloc);
    for number in numbers {
        push_literal(&mut lits, *number)?;
    }
    push(formula, lits.as_slice())
}

/// The set of these variables, of those from 1 to n.
pub fn set_of(alloc: Global, n: u32, vars: &[u32]) -> Result<VarSet, Fail>
    ensures { IfOk result (λ s. length s ≡ n) }
{
    let mut set = VarSet::new(alloc, n)?;
    for v in vars {
        if *v == 0 || *v > n {
            return Err(Fail::from("no variable"));
        }
        set.add(*v);
    }
    Ok(set)
}
