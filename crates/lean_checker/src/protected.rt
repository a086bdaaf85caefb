//! Protected variables: their check, and the formula without their literals.
ghost use Rattle.std.specs.Prelude.{◌≡◌, length, unwrap_or, IfOk, IsTrue};
ghost use Rattle.lk_model.specs.Lists.{among, rises_within};
ghost use Rattle.lk_model.specs.Formulas.Formula.{Cnf};
ghost use Rattle.lk_model.specs.Formulas.Crossed.{formula_without, protected_by};
ghost use Rattle.lk_model.specs.Formulas.Assignment.{assignment_of};
ghost use Rattle.lk_model.specs.Held.PartialValues.{assignment_by};
ghost use Rattle.lk_model.specs.Documents.Form.{is_protect_line};
ghost use Rattle.lk_model.specs.Checks.CommonChecks.{protected_set};

use check_places::first_set;
use lk_model::{DoneDocument, Formula, List, OutOfMemory, VarSet};
use partial_assign::Partial;
use std::alloc::Global;

/// The first protected variable that the set line sets, for any formula over as many variables.
pub(crate) fn protected_set(d: &DoneDocument, values: &Partial) -> Option<u32>
    requires line { IsTrue (is_protect_line (length values.now) d.now.protect) }
    requires values { assignment_by values.now ≡ assignment_of d.now.set }
    ensures { (F : Cnf) → F.vars ≡ length values.now
        → result ≡ (protected_set (protected_by d.now.protect) F d.now).place }
{
    match &d.protect {
        Some(vars) => first_set(vars.as_slice(), values),
        None => None,
    }
}

/// The formula without the literals on the variables of a protect line; None where it is the formula
/// itself, since no variable is protected.
pub(crate) fn without_protected(
    alloc: Global,
    f: &Formula,
    protect: &Option<List<u32>>,
) -> Result<Option<Formula>, OutOfMemory>
    requires { IsTrue (is_protect_line f.now.vars protect.now) }
    ensures { IfOk result (λ rest. unwrap_or rest f.now ≡ formula_without f.now (protected_by protect.now)) }
{
    match protect {
        Some(vars) => without_listed(alloc, f, vars.as_slice()),
        None => Ok(None),
    }
}

/// The formula without the literals on the variables of a list; None where it is the formula itself, since
/// the list is empty.
fn without_listed(alloc: Global, f: &Formula, vars: &[u32]) -> Result<Option<Formula>, OutOfMemory>
    requires { IsTrue (rises_within 0 f.now.vars vars.now) }
    ensures { IfOk result (λ rest. unwrap_or rest f.now ≡ formula_without f.now (among vars.now)) }
{
    if vars.is_empty() {
        return Ok(None);
    }
    let protected = VarSet::of(alloc, f.vars(), vars)?;
    Ok(Some(f.without(alloc, &protected)?))
}
