//! The checks of every finished document, shared out among workers.
ghost use Rattle.std.specs.Prelude.{◌≡◌, ◌≤◌, ◌<◌, ◌&&◌, not, length, IfOk, IsTrue};
ghost use Rattle.lk_model.specs.Formulas.Assignment.{assignment_of, first_unsatisfied, satisfies, touches};
ghost use Rattle.lk_model.specs.Formulas.Formula.{clause_at};
ghost use Rattle.lk_model.specs.Formulas.Lean.{are_positions};
ghost use Rattle.lk_model.specs.Held.PartialValues.{assignment_by};
ghost use Rattle.lk_model.specs.Checks.CommonChecks.{kept_clause, not_exactly_removed};
ghost use Rattle.lean_checker.specs.Common.{is_changed_line};
ghost use Rattle.check_tables.specs.Flags.{AreKeptFlags};

use crate::common::is_same_list;
use check_places::{is_misplaced, number_at};
use check_tables::Workers;
use lk_model::{DoneDocument, Formula, OutOfMemory};
use lk_outside::Gate;
use partial_assign::Partial;
use std::thread::Threads;

/// The first kept position whose clause line is not the formula's clause.
pub(crate) fn kept_clause<R: Threads + Sync, G: Gate>(
    workers: &Workers<R, G>,
    f: &Formula,
    d: &DoneDocument,
) -> Result<Option<u32>, OutOfMemory>
    requires positions { IsTrue (are_positions f.now d.now.kept) }
    requires lines { length d.now.texts.clauses ≡ length d.now.kept }
    ensures { IfOk result (λ place. place ≡ (kept_clause f.now d.now).place) }
{
    let texts = &d.texts;
    let kept = d.kept.as_slice();
    let line = workers.least_place(texts.len(), &|i| is_changed_line(f, texts, kept, i))?;
    Ok(line.map(|i| number_at(kept, i)))
}

/// Whether a clause line is not the formula's clause at its kept position.
fn is_changed_line(f: &Formula, texts: &Formula, kept: &[u32], i: u32) -> bool
    requires positions { IsTrue (are_positions f.now kept.now) }
    requires lines { length texts.now.clauses ≡ length kept.now }
    requires first { 0 < i }
    requires last { i ≤ length kept.now }
    ensures { result ≡ is_changed_line f.now texts.now kept.now i }
{
    !is_same_list(texts.clause(i), f.clause(kept[i as usize - 1]))
}

/// The first position whose clause is touched and not satisfied.
pub(crate) fn not_autarky<R: Threads + Sync, G: Gate>(
    workers: &Workers<R, G>,
    f: &Formula,
    values: &Partial,
) -> Result<Option<u32>, OutOfMemory>
    requires vars { length values.now ≡ f.now.vars }
    ensures { IfOk result (λ place. place ≡ first_unsatisfied (assignment_by values.now) f.now) }
{
    workers.least_place(f.len(), &|p| is_unsatisfied(f, values, p))
}

/// Whether the clause at a position is touched and not satisfied.
fn is_unsatisfied(f: &Formula, values: &Partial, p: u32) -> bool
    requires vars { length values.now ≡ f.now.vars }
    requires first { 0 < p }
    requires last { p ≤ length f.now.clauses }
    ensures { result ≡
        (touches (assignment_by values.now) (clause_at f.now p) && not
        (satisfies (assignment_by values.now) (clause_at f.now p))) }
{
    let clause = f.clause(p);
    values.touches(clause) && !values.satisfies(clause)
}

/// The first position whose clause is touched and kept, or neither.
pub(crate) fn not_exactly_removed<R: Threads + Sync, G: Gate>(
    workers: &Workers<R, G>,
    f: &Formula,
    d: &DoneDocument,
    values: &Partial,
    flags: &[bool],
) -> Result<Option<u32>, OutOfMemory>
    requires vars { length values.now ≡ f.now.vars }
    requires values { assignment_by values.now ≡ assignment_of d.now.set }
    requires flags { AreKeptFlags (length f.now.clauses) d.now.kept flags.now }
    ensures { IfOk result (λ place. place ≡ (not_exactly_removed f.now d.now).place) }
{
    workers.least_place(f.len(), &|p| is_misplaced(f, values, flags, p))
}
