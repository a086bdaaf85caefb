//! The whole check.
//!
//! The checks are made one after another: first those of every document, and then those of its class. The first one
//! that fails is reported.
ghost use Rattle.std.specs.Prelude.{◌≡◌, ◌<◌, ℕ, None, IfOk, IsTrue};
ghost use Rattle.lk_model.specs.Formulas.Formula.{is_formula};
ghost use Rattle.lk_model.specs.Formulas.Crossed.{no_variable, protected_by};
ghost use Rattle.lk_model.specs.Documents.Form.{is_done_in_form, is_in_form};
ghost use Rattle.lk_model.specs.Checks.Checks.{first_failure, first_five, class_checks};
ghost use Rattle.lk_model.specs.Checks.Check.{first_of};
ghost use Rattle.lk_model.specs.declared.document.Document.TheVariants.{Done};
ghost use Rattle.lk_model.specs.declared.document.Body.TheVariants.{Pure, Matching, Linear};
ghost use Rattle.lean_checker.specs.Verdicts.{verdict_of};
ghost use Rattle.lean_checker.specs.Accepted.{HasSizes, IsReducedBy, IsSoundBy};

use crate::common::{failure, first_common, marks_of, other_formula};
use crate::general::general_failure;
use crate::protected::{protected_set, without_protected};
use crate::shared::{kept_clause, not_autarky, not_exactly_removed};
use crate::unfinished::open_failure;
use crate::verdict::Verdict;
use check_linear::{bad_balance, bad_dual, bad_sign, bad_stage, bad_unit};
use check_pure_matching::{bad_order, bad_owner, bad_pair, bad_row};
use check_tables::Workers;
use lk_model::{
    Body, Document, DoneDocument, Dual, Formula, Kind, Lit, MatchRow, OutOfMemory, Own, Pair,
    Stage, Unit, Why,
};
use lk_outside::Gate;
use std::alloc::Global;
use std::thread::Threads;

/// What the checks say of a document and a formula: the first failing check, or that none fails. The
/// document may be anybody's, finished or not, of every class, with protected variables or without, if it
/// is in form, as every document is that was read from a text. The verdict is the same for each number of
/// workers.
///
/// Where it is `Accepted`, the kept clauses are the kernel of the document's class, the set line is an
/// autarky of the class that touches exactly the removed clauses, and every model of the kept clauses,
/// overridden by the set line, satisfies the formula (Handbook of Satisfiability, Kleine Büning and
/// Kullmann). Of the protected variables the set line sets none, and the kernel is that of the autarkies
/// that set none. Where it is `Unfinished`, no check of the unfinished document fails: each of its steps
/// states the clause of its chain, and each learned clause is new.
///
/// The work is meant to grow with the formula and the document, with no scan of the one for parts of the
/// other, and the last pass of each kind is shared out among the workers; no clause says so. For each kind
/// that is searched by two workers or more, over two places or more, the halves enter the gate once, as 0
/// and as 1, each before its first place.
pub fn check<R: Threads + Sync, G: Gate>(
    rt: &R,
    alloc: Global,
    gate: &G,
    f: &Formula,
    d: &Document,
    workers: u32,
) -> Result<Verdict, OutOfMemory>
    requires form { IsTrue (is_in_form d.now) }
    requires workers { 0 < workers }
    ensures verdict { IfOk result (λ v. v ≡ verdict_of f.now d.now) }
    ensures reduction { result ≡ Ok Verdict.Accepted → IsReducedBy f.now d.now }
    ensures sound { (learned : ℕ) → result ≡ Ok (Verdict.Unfinished learned) → IsSoundBy f.now d.now }
{
    let workers = Workers::new(rt, alloc, gate, workers);
    match d {
        Document::Done(done) => match first_failure(&workers, alloc, f, done)? {
            Some(why) => Ok(Verdict::No(why)),
            None => Ok(Verdict::Accepted),
        },
        Document::Unfinished(open) => match open_failure(&workers, alloc, f, open)? {
            Some(why) => Ok(Verdict::No(why)),
            None => Ok(Verdict::Unfinished(open.learned)),
        },
    }
}

/// The first failing check of a finished document.
fn first_failure<R: Threads + Sync, G: Gate>(
    workers: &Workers<R, G>,
    alloc: Global,
    f: &Formula,
    d: &DoneDocument,
) -> Result<Option<Why>, OutOfMemory>
    requires form { IsTrue (is_done_in_form d.now) }
    ensures first { IfOk result (λ why. why ≡ first_failure f.now (Done d.now)) }
    ensures formula { IsTrue (is_formula f.now) }
{
    if let Some(why) = common_failure(workers, alloc, f, d)? {
        return Ok(Some(why));
    }
    match without_protected(alloc, f, &d.protect)? {
        Some(rest) => class_failure(workers, alloc, &rest, d),
        None => class_failure(workers, alloc, f, d),
    }
}

/// The first failing check of those that every finished document has.
fn common_failure<R: Threads + Sync, G: Gate>(
    workers: &Workers<R, G>,
    alloc: Global,
    f: &Formula,
    d: &DoneDocument,
) -> Result<Option<Why>, OutOfMemory>
    requires { IsTrue (is_done_in_form d.now) }
    ensures first { IfOk result (λ why. why ≡ first_of (first_five (protected_by d.now.protect) f.now d.now)) }
    ensures sizes { IfOk result (λ why. why ≡ None → HasSizes f.now d.now) }
    ensures formula { IsTrue (is_formula f.now) }
{
    if let Some(place) = other_formula(f, d.vars, d.clauses) {
        return Ok(failure(Kind::OtherFormula, place));
    }
    let marks = marks_of(alloc, f, d)?;
    Ok(first_common(
        kept_clause(workers, f, d)?,
        protected_set(d, &marks.values),
        not_autarky(workers, f, &marks.values)?,
        not_exactly_removed(workers, f, d, &marks.values, marks.kept.as_slice())?,
    ))
}

/// The first failing check of those of the document's class, where no variable is protected.
fn class_failure<R: Threads + Sync, G: Gate>(
    workers: &Workers<R, G>,
    alloc: Global,
    f: &Formula,
    d: &DoneDocument,
) -> Result<Option<Why>, OutOfMemory>
    requires form { IsTrue (is_done_in_form d.now) }
    requires sizes { HasSizes f.now d.now }
    ensures { IfOk result (λ why. why ≡ first_of (class_checks no_variable f.now d.now d.now.body)) }
{
    match &d.body {
        Body::Pure { order, pairs } => {
            pure_failure(workers, alloc, f, d, order.as_slice(), pairs.as_slice())
        }
        Body::Matching { own, rows } => {
            matching_failure(workers, alloc, f, d, own.as_slice(), rows.as_slice())
        }
        Body::Linear {
            stages,
            dual,
            units,
        } => linear_failure(
            workers,
            alloc,
            f,
            d,
            stages.as_slice(),
            dual.as_slice(),
            units.as_slice(),
        ),
        Body::General { rounds } => general_failure(workers, alloc, f, d, rounds.as_slice()),
    }
}

/// The first failing check of those of the class pure.
fn pure_failure<R: Threads + Sync, G: Gate>(
    workers: &Workers<R, G>,
    alloc: Global,
    f: &Formula,
    d: &DoneDocument,
    order: &[Lit],
    pairs: &[Pair],
) -> Result<Option<Why>, OutOfMemory>
    requires form { IsTrue (is_done_in_form d.now) }
    requires body { d.now.body ≡ Pure order.now pairs.now }
    requires sizes { HasSizes f.now d.now }
    ensures { IfOk result (λ why. why ≡ first_of (class_checks no_variable f.now d.now (Pure order.now pairs.now))) }
{
    if let Some(place) = bad_order(workers, alloc, f, d, order)? {
        return Ok(Some(Why {
            kind: Kind::BadOrder,
            place: place as u64,
        }));
    }
    match bad_pair(workers, alloc, f, d, pairs)? {
        Some(place) => Ok(failure(Kind::BadPair, place)),
        None => Ok(None),
    }
}

/// The first failing check of those of the class matching.
fn matching_failure<R: Threads + Sync, G: Gate>(
    workers: &Workers<R, G>,
    alloc: Global,
    f: &Formula,
    d: &DoneDocument,
    own: &[Own],
    rows: &[MatchRow],
) -> Result<Option<Why>, OutOfMemory>
    requires form { IsTrue (is_done_in_form d.now) }
    requires body { d.now.body ≡ Matching own.now rows.now }
    requires sizes { HasSizes f.now d.now }
    ensures { IfOk result (λ why. why ≡ first_of (class_checks no_variable f.now d.now (Matching own.now rows.now))) }
{
    if let Some(place) = bad_owner(workers, alloc, f, d, own)? {
        return Ok(failure(Kind::BadOwner, place));
    }
    match bad_row(workers, alloc, f, d, rows)? {
        Some(place) => Ok(failure(Kind::BadRow, place)),
        None => Ok(None),
    }
}

/// The first failing check of those of the class linear.
fn linear_failure<R: Threads + Sync, G: Gate>(
    workers: &Workers<R, G>,
    alloc: Global,
    f: &Formula,
    d: &DoneDocument,
    stages: &[Stage],
    dual: &[Dual],
    units: &[Unit],
) -> Result<Option<Why>, OutOfMemory>
    requires form { IsTrue (is_done_in_form d.now) }
    requires body { d.now.body ≡ Linear stages.now dual.now units.now }
    requires sizes { HasSizes f.now d.now }
    ensures { IfOk result
        (λ why. why ≡ first_of (class_checks no_variable f.now d.now (Linear stages.now dual.now units.now))) }
{
    if let Some(place) = bad_sign(workers, alloc, f, d, stages)? {
        return Ok(failure(Kind::BadSign, place));
    }
    if let Some(place) = bad_stage(workers, alloc, f, d, stages)? {
        return Ok(failure(Kind::BadStage, place));
    }
    if let Some(place) = bad_dual(workers, alloc, f, d, dual)? {
        return Ok(failure(Kind::BadDual, place));
    }
    if let Some(place) = bad_balance(workers, alloc, f, d, dual)? {
        return Ok(failure(Kind::BadBalance, place));
    }
    match bad_unit(workers, alloc, f, d, units)? {
        Some(place) => Ok(failure(Kind::BadUnit, place)),
        None => Ok(None),
    }
}
