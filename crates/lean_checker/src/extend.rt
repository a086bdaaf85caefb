//! The check of a model that is to be extended.
ghost use Rattle.std.specs.Prelude.{◌≡◌, ℕ, None, false, length, unwrap_or, IfOk, IsTrue};
ghost use Rattle.lk_model.specs.Formulas.Assignment.{assignment_of, extended, extended_value, IsModel};
ghost use Rattle.lk_model.specs.Formulas.Crossed.{protected_by};
ghost use Rattle.lk_model.specs.Formulas.Formula.{is_formula};
ghost use Rattle.lk_model.specs.Formulas.Lean.{all_of, are_positions};
ghost use Rattle.lk_model.specs.Held.PartialValues.{assignment_by};
ghost use Rattle.lk_model.specs.Documents.Form.{is_done_in_form};
ghost use Rattle.lk_model.specs.Checks.CommonChecks.{model_fails};
ghost use Rattle.lk_model.specs.Checks.Check.{first_of};
ghost use Rattle.lk_model.specs.Checks.Checks.{first_failure_to_extend, first_five};
ghost use Rattle.lean_checker.specs.Accepted.{HasSizes};

use crate::common::{
    failure, first_common, kept_clause, marks_of, not_exactly_removed, other_formula,
};
use crate::protected::protected_set;
use lk_model::{DoneDocument, Formula, Kind, OutOfMemory, Why};
use partial_assign::Partial;
use std::alloc::Global;

/// The first failing check of those that are made before a model of the kept clauses is extended by a
/// finished document, of any class and with any protected variables. The lines of the class and whether
/// the kept clauses are lean do not matter to it.
///
/// Where none fails, the set line is an autarky that touches exactly the removed clauses, and the model
/// satisfies the kept ones. So the model, overridden by the set line, satisfies the formula (Handbook of
/// Satisfiability, Kleine Büning and Kullmann), and the protected variables keep its values.
pub fn check_extend(
    alloc: Global,
    f: &Formula,
    d: &DoneDocument,
    psi: &Partial,
) -> Result<Option<Why>, OutOfMemory>
    requires form { IsTrue (is_done_in_form d.now) }
    requires vars { length psi.now ≡ f.now.vars }
    ensures first { IfOk result (λ why. why ≡ first_failure_to_extend f.now d.now (assignment_by psi.now)) }
    ensures extends { result ≡ Ok None
        → IsModel f.now (all_of f.now) (extended (assignment_of d.now.set) (assignment_by psi.now) f.now.vars) }
    ensures protected { result ≡ Ok None → (v : ℕ) → IsTrue (protected_by d.now.protect v)
        → extended_value (assignment_of d.now.set) (assignment_by psi.now) v ≡ unwrap_or
        (assignment_by psi.now v) false }
{
    if let Some(why) = common_failure(alloc, f, d)? {
        return Ok(Some(why));
    }
    match model_fails(f, d, psi) {
        Some(place) => Ok(failure(Kind::ModelFails, place)),
        None => Ok(None),
    }
}

/// The first failing check of those that every finished document has.
fn common_failure(alloc: Global, f: &Formula, d: &DoneDocument) -> Result<Option<Why>, OutOfMemory>
    requires { IsTrue (is_done_in_form d.now) }
    ensures first { IfOk result (λ why. why ≡ first_of (first_five (protected_by d.now.protect) f.now d.now)) }
    ensures sizes { IfOk result (λ why. why ≡ None → HasSizes f.now d.now) }
    ensures formula { IsTrue (is_formula f.now) }
{
    if let Some(place) = other_formula(f, d.vars, d.clauses) {
        return Ok(failure(Kind::OtherFormula, place));
    }
    let marks = marks_of(alloc, f, d)?;
    Ok(first_common(
        kept_clause(f, d),
        protected_set(d, &marks.values),
        marks.values.first_unsatisfied_touched(f),
        not_exactly_removed(f, d, &marks.values, marks.kept.as_slice()),
    ))
}

/// The first kept position whose clause the model by itself does not satisfy.
fn model_fails(f: &Formula, d: &DoneDocument, psi: &Partial) -> Option<u32>
    requires positions { IsTrue (are_positions f.now d.now.kept) }
    requires vars { length psi.now ≡ f.now.vars }
    ensures { result ≡ (model_fails f.now d.now (assignment_by psi.now)).place }
{
    for p in d.kept.as_slice() {
        if !psi.satisfies(f.clause(*p)) {
            return Some(*p);
        }
    }
    None
}
