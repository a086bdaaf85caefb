//! The checks of a core, one kind after another.
ghost use Rattle.std.specs.Prelude.{◌≡◌, ◌∷◌, [], length, IfOk, IsTrue};
ghost use Rattle.lk_model.specs.Formulas.Crossed.{no_variable};
ghost use Rattle.lk_model.specs.Documents.CoreText.{is_core_in_form};
ghost use Rattle.lk_model.specs.Checks.Check.{first_of};
ghost use Rattle.lk_model.specs.Checks.RoundChecks.{bad_step};
ghost use Rattle.lk_model.specs.Checks.CoreChecks.{bad_without, first_failure_of_core};

use crate::clauses::changed_clause;
use crate::witnesses::bad_without;
use check_rounds::misstated_step;
use lk_model::{Formula, Kind, MusAnswer, OutOfMemory, Why};
use std::alloc::Global;

/// The first failing check of what is written of a core of a formula, in form: the least position whose clause is
/// another one, the first step that does not state the clause of its chain over the core, or the least position
/// whose literals leave another clause of the core unsatisfied. The error says that memory ran out.
pub(crate) fn core_failure(
    alloc: Global,
    f: &Formula,
    a: &MusAnswer,
) -> Result<Option<Why>, OutOfMemory>
    requires form { IsTrue (is_core_in_form a.now) }
    requires vars { a.now.vars ≡ f.now.vars }
    requires clauses { a.now.clauses ≡ length f.now.clauses }
    ensures { IfOk result (λ why. why ≡ first_failure_of_core f.now a.now) }
{
    match changed_clause(f, a) {
        Some(position) => Ok(Some(Why {
            kind: Kind::KeptClause,
            place: u64::from(position),
        })),
        None => step_failure(alloc, f, a),
    }
}

/// The first failing check after that of the clauses.
fn step_failure(alloc: Global, f: &Formula, a: &MusAnswer) -> Result<Option<Why>, OutOfMemory>
    requires form { IsTrue (is_core_in_form a.now) }
    requires vars { a.now.vars ≡ f.now.vars }
    requires clauses { a.now.clauses ≡ length f.now.clauses }
    ensures { IfOk result
        (λ why. why ≡ first_of
        (bad_step no_variable f.now a.now.core (a.now.round ∷ []) ∷ bad_without f.now a.now.core a.now.without ∷ [])) }
{
    match misstated_step(alloc, f, a.core.as_slice(), &a.round)? {
        Some(number) => Ok(Some(Why {
            kind: Kind::BadStep,
            place: number,
        })),
        None => witness_failure(alloc, f, a),
    }
}

/// The check of the literals for each position.
fn witness_failure(alloc: Global, f: &Formula, a: &MusAnswer) -> Result<Option<Why>, OutOfMemory>
    requires form { IsTrue (is_core_in_form a.now) }
    requires vars { a.now.vars ≡ f.now.vars }
    requires clauses { a.now.clauses ≡ length f.now.clauses }
    ensures { IfOk result (λ why. why ≡ first_of (bad_without f.now a.now.core a.now.without ∷ [])) }
{
    match bad_without(alloc, f, a.core.as_slice(), a.without.as_slice())? {
        Some(position) => Ok(Some(Why {
            kind: Kind::BadWithout,
            place: u64::from(position),
        })),
        None => Ok(None),
    }
}
