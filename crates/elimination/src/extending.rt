//! Models of a formula from models of what an elimination leaves.
ghost use Rattle.std.specs.Prelude.{◌≡◌, IfOk, length};

use crate::eliminator::Removed;
use lk_model::{Formula, Lit, OutOfMemory};
use partial_assign::Partial;
use std::alloc::Global;

/// Values for the variables: true are the literals of unit clauses and those of a model of what is left, and the literal
/// of a variable that went where one of its clauses has no other true literal. The last one that went comes first, since
/// its clauses have variables that went after it.
pub(crate) fn extended(
    alloc: Global,
    clauses: &Formula,
    units: &[Lit],
    rest: &[Lit],
    removed: &[Removed],
) -> Result<Partial, OutOfMemory>
    ensures { IfOk result (λ values. length values ≡ clauses.now.vars) }
{
    let mut values = all_false(alloc, clauses)?;
    make_all_true(&mut values, units);
    make_all_true(&mut values, rest);
    for k in (0..removed.len()).rev() {
        let gone = &removed[k];
        make_true(&mut values, gone.literal.negated());
        if !are_satisfied(&values, clauses, gone.clauses.as_slice()) {
            make_true(&mut values, gone.literal);
        }
    }
    Ok(values)
}

/// Each variable is false.
fn all_false(alloc: Global, clauses: &Formula) -> Result<Partial, OutOfMemory>
    ensures { IfOk result (λ values. length values ≡ clauses.now.vars) }
{
    let mut values = Partial::new(alloc, clauses.vars())?;
    for v in 1..clauses.vars() + 1 {
        make_true(&mut values, Lit::from_var(v, false));
    }
    Ok(values)
}

/// Makes literals true.
fn make_all_true(values: &mut Partial, literals: &[Lit])
    ensures { length values.new ≡ length values.old }
{
    for l in literals {
        make_true(values, *l);
    }
}

/// Makes a literal true, whatever value its variable had.
fn make_true(values: &mut Partial, l: Lit)
    ensures { length values.new ≡ length values.old }
{
    if l.var() <= values.vars() {
        values.make_true(l);
    }
}

/// Whether each of some clauses has a true literal.
fn are_satisfied(values: &Partial, clauses: &Formula, numbers: &[u32]) -> bool {
    numbers
        .iter()
        .all(|number| is_satisfied(values, clauses, *number))
}

/// Whether the clause of a number has a true literal.
fn is_satisfied(values: &Partial, clauses: &Formula, number: u32) -> bool {
    if number == 0 || number > clauses.len() {
        return false;
    }
    clauses.clause(number).iter().any(|l| is_true(values, *l))
}

/// Whether a literal is true.
fn is_true(values: &Partial, l: Lit) -> bool {
    l.var() <= values.vars() && values.value(l.var()) == Some(l.positive())
}
