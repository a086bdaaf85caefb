//! Whether the clauses of a formula have a model, by elimination of variables and a search of what is left.
//!
//! Nothing of an elimination is proved, nor of the search of what it leaves, which forgets clauses. Refutations are made
//! anew over the formula, chain by chain, and models are tested clause by clause; what does not stand the test is no answer.
ghost use Rattle.std.specs.Prelude.{◌≡◌, ◌<◌, ◌+◌, ◌^◌, IfOk, IfSome, IsTrue, find, length, not};
ghost use Rattle.lk_model.specs.Formulas.Assignment.{satisfies};
ghost use Rattle.lk_model.specs.Formulas.Formula.{clause_at, positions_of};
ghost use Rattle.lk_model.specs.Held.PartialValues.{assignment_by};
ghost use Rattle.part_copy.specs.Found.{are_filled, IsPartModel, IsPartRefuted};
ghost use Rattle.part_formula.specs.Decisions.{IsDecision, most_steps};

use crate::deciding::Decision;
use elimination::{Eliminated, literals_in};
use general_kernel::set_of;
use lk_model::{Budget, Crossed, Decided, Formula, List, Lit, OutOfMemory, Round, VarSet};
use part_copy::PartCopy;
use partial_assign::Partial;
use refutation_log::{Chain, replay};
use std::alloc::Global;

// A formula of fewer variables is searched as it is: that takes no time, and its refutations stay short.
const LEAST_VARS: u32 = 100;

// If more variables of a hundred are left, or more clauses, the formula is searched as it is: there is little to gain, and
// chains become longer.
const MOST_VARS_LEFT: u64 = 75;

const MOST_CLAUSES_LEFT: u64 = 85;

/// What a search of the clauses that are left finds, in the numbers of the elimination. If the elimination derives the empty
/// clause, no search is needed.
#[derive(Drop)]
enum Found {
    Model(List<Lit>),
    Refutation(Option<Round>),
    Nothing,
}

/// A model or a refutation of the clauses of a formula. There is none if the formula is small, if too little of it goes, if the
/// search of what is left uses up its budget, or if what it finds does not stand the test.
pub(crate) fn decide_by_elimination(
    alloc: Global,
    f: &Formula,
    conflicts: Budget,
) -> Result<Option<Decision>, OutOfMemory>
    requires { IsTrue (are_filled f.now (positions_of f.now)) }
    ensures { IfOk result (λ d. IfSome d (IsDecision f.now (positions_of f.now) conflicts)) }
{
    if f.vars() < LEAST_VARS {
        return Ok(None);
    }
    let eliminated = Eliminated::of(alloc, f)?;
    match search(alloc, f, &eliminated, conflicts)? {
        Found::Model(rest) => {
            let values = eliminated.model(alloc, rest.as_slice())?;
            let model = tested_model(alloc, f, &values)?;
            Ok(model.map(|set| Decided::Model(set)))
        }
        Found::Refutation(rest) => {
            let chains = eliminated.refutation(alloc, rest)?;
            let round = tested_refutation(alloc, f, chains.as_slice(), conflicts)?;
            Ok(round.map(|round| Decided::Refuted(round)))
        }
        Found::Nothing => Ok(None),
    }
}

/// Searches what is left.
fn search(
    alloc: Global,
    f: &Formula,
    eliminated: &Eliminated,
    conflicts: Budget,
) -> Result<Found, OutOfMemory> {
    if eliminated.is_refuted() {
        return Ok(Found::Refutation(None));
    }
    let left = eliminated.left(alloc)?;
    let rest = PartCopy::of(alloc, eliminated.clauses(), left.as_slice())?;
    if !is_less(rest.clauses(), f) {
        return Ok(Found::Nothing);
    }
    match quick_search::decide(alloc, rest.clauses(), conflicts)? {
        Decided::Model(values) => match tested_model(alloc, rest.clauses(), &values)? {
            Some(literals) => Ok(Found::Model(rest.literals(literals))),
            None => Ok(Found::Nothing),
        },
        Decided::Refuted(round) => Ok(Found::Refutation(Some(rest.refutation(alloc, round)?))),
        Decided::Stopped(()) => Ok(Found::Nothing),
    }
}

/// Whether what is left has so few variables and clauses that it is searched.
fn is_less(rest: &Formula, f: &Formula) -> bool {
    is_within(rest.vars(), f.vars(), MOST_VARS_LEFT)
        && is_within(rest.len(), f.len(), MOST_CLAUSES_LEFT)
}

/// Whether a number is at most this many hundredths of another one.
fn is_within(part: u32, whole: u32, hundredths: u64) -> bool {
    u64::from(part).saturating_mul(100) <= u64::from(whole).saturating_mul(hundredths)
}

/// The literals that these values make true on variables of the clauses, ascending, if they satisfy each clause.
pub fn tested_model(
    alloc: Global,
    f: &Formula,
    values: &Partial,
) -> Result<Option<List<Lit>>, OutOfMemory>
    ensures { IfOk result (λ set. IfSome set (IsPartModel f.now (positions_of f.now))) }
{
    if values.vars() != f.vars() {
        return Ok(None);
    }
    match first_unsatisfied(values, f) {
        Some(_) => Ok(None),
        None => {
            let all = f.positions(alloc)?;
            Ok(Some(set_of(alloc, f, all.as_slice(), values)?))
        }
    }
}

/// The least position of a clause that the values do not satisfy.
fn first_unsatisfied(values: &Partial, f: &Formula) -> Option<u32>
    requires { length values.now ≡ f.now.vars }
    ensures { result ≡ find (λ p. not (satisfies (assignment_by values.now) (clause_at f.now p))) (positions_of f.now) }
{
    (1..f.len() + 1).find(|k| !values.satisfies(f.clause(*k)))
}

/// The needed steps of the refutation that these chains make, if each has a clause, the last clause and no other is empty,
/// and they are not too many.
pub fn tested_refutation(
    alloc: Global,
    f: &Formula,
    chains: &[Chain],
    conflicts: Budget,
) -> Result<Option<Round>, OutOfMemory>
    requires { IsTrue (are_filled f.now (positions_of f.now)) }
    ensures { IfOk result
        (λ round. IfSome round (IsPartRefuted f.now (positions_of f.now) (most_steps f.now conflicts))) }
{
    if chains.len() as u64 > most_steps(f, conflicts) {
        return Ok(None);
    }
    let all = f.positions(alloc)?;
    let blocked = VarSet::new(alloc, f.vars())?;
    let next = u64::from(f.len()) + 1;
    let over = Crossed {
        formula: f,
        part: all.as_slice(),
        blocked: &blocked,
    };
    match replay(alloc, &over, next, chains)? {
        Some(log) => Ok(Some(log.trim(next)?)),
        None => Ok(None),
    }
}

/// How many steps a refutation may have beside that of the empty clause.
fn most_steps(f: &Formula, conflicts: Budget) -> u64
    ensures value { result ≡ most_steps f.now conflicts }
    ensures small { result < 2 ^ 63 + 2 ^ 26 }
{
    conflicts.get() + 3 * literals_in(f) as u64
}
