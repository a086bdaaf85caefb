//! The checks of every finished document, each in one pass.
ghost use Rattle.std.specs.Prelude.{◌≡◌, ◌<◌, length, IfOk, IsTrue};
ghost use Rattle.lk_model.specs.Formulas.Literal.{is_same_list};
ghost use Rattle.lk_model.specs.Formulas.Formula.{is_formula};
ghost use Rattle.lk_model.specs.Formulas.Lean.{are_positions};
ghost use Rattle.lk_model.specs.Held.PartialValues.{assignment_by};
ghost use Rattle.lk_model.specs.Formulas.Assignment.{assignment_of};
ghost use Rattle.lk_model.specs.Documents.Form.{is_done_in_form};
ghost use Rattle.lk_model.specs.Checks.Check.{first_of};
ghost use Rattle.lk_model.specs.Checks.CommonChecks.{other_formula, kept_clause, not_exactly_removed};
ghost use Rattle.lean_checker.specs.Accepted.{HasSizes};
ghost use Rattle.check_tables.specs.Flags.{AreKeptFlags};
ghost use Rattle.lean_checker.specs.Common.{common_checks};

use check_places::is_misplaced;
use check_tables::kept_flags;
use lk_model::{DoneDocument, Formula, Kind, Lit, OutOfMemory, Why};
use partial_assign::{Partial, assignment_of};
use std::alloc::Global;

/// 0 where the formula has other numbers of variables or clauses than the document says.
pub(crate) fn other_formula(f: &Formula, vars: u32, clauses: u32) -> Option<u32>
    ensures place { result ≡ (other_formula f.now vars clauses).place }
    ensures formula { IsTrue (is_formula f.now) }
{
    if vars == f.vars() && clauses == f.len() {
        None
    } else {
        Some(0)
    }
}

/// The first kept position whose clause line is not the formula's clause.
pub(crate) fn kept_clause(f: &Formula, d: &DoneDocument) -> Option<u32>
    requires positions { IsTrue (are_positions f.now d.now.kept) }
    requires lines { length d.now.texts.clauses ≡ length d.now.kept }
    ensures { result ≡ (kept_clause f.now d.now).place }
{
    let kept = d.kept.as_slice();
    for i in 0..d.texts.len() {
        let p = kept[i as usize];
        if !is_same_list(d.texts.clause(i + 1), f.clause(p)) {
            return Some(p);
        }
    }
    None
}

/// Whether two clauses are the same literals in the same order.
pub(crate) fn is_same_list(one: &[Lit], other: &[Lit]) -> bool
    ensures { result ≡ is_same_list one.now other.now }
{
    one == other
}

/// The first position whose clause is touched and kept, or neither.
pub(crate) fn not_exactly_removed(
    f: &Formula,
    d: &DoneDocument,
    values: &Partial,
    flags: &[bool],
) -> Option<u32>
    requires vars { length values.now ≡ f.now.vars }
    requires values { assignment_by values.now ≡ assignment_of d.now.set }
    requires flags { AreKeptFlags (length f.now.clauses) d.now.kept flags.now }
    ensures { result ≡ (not_exactly_removed f.now d.now).place }
{
    (1..f.len() + 1).find(|p| is_misplaced(f, values, flags, *p))
}

/// What a document sets, and which positions it keeps.
#[derive(Drop)]
pub(crate) struct Marks {
    pub values: Partial,
    pub kept: Vec<bool>,
}

/// What a document sets and keeps, for a formula with the numbers that it states.
pub(crate) fn marks_of(alloc: Global, f: &Formula, d: &DoneDocument) -> Result<Marks, OutOfMemory>
    requires form { IsTrue (is_done_in_form d.now) }
    requires sizes { HasSizes f.now d.now }
    ensures vars { IfOk result (λ marks. length marks.values ≡ f.now.vars) }
    ensures values { IfOk result (λ marks. assignment_by marks.values ≡ assignment_of d.now.set) }
    ensures kept { IfOk result (λ marks. AreKeptFlags (length f.now.clauses) d.now.kept marks.kept.items) }
{
    Ok(Marks {
        values: assignment_of(alloc, f.vars(), d.set.as_slice())?,
        kept: kept_flags(alloc, f.len(), d.kept.as_slice())?,
    })
}

/// The first failure behind that of the numbers, by the places of the other checks.
pub(crate) fn first_common(
    changed: Option<u32>,
    protected: Option<u32>,
    unsatisfied: Option<u32>,
    misplaced: Option<u32>,
) -> Option<Why>
    ensures { result ≡ first_of (common_checks changed protected unsatisfied misplaced) }
{
    if let Some(place) = changed {
        return failure(Kind::KeptClause, place);
    }
    if let Some(place) = protected {
        return failure(Kind::ProtectedSet, place);
    }
    if let Some(place) = unsatisfied {
        return failure(Kind::NotAutarky, place);
    }
    if let Some(place) = misplaced {
        return failure(Kind::NotExactlyRemoved, place);
    }
    None
}

/// The failure of a kind at a position or variable.
pub(crate) fn failure(kind: Kind, place: u32) -> Option<Why>
    ensures { result ≡ Some (record { kind = kind; place = place }) }
{
    Some(Why {
        kind,
        place: u64::from(place),
    })
}
