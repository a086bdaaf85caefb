//! The check that each learned clause is new.
//!
//! A learned clause contains no clause of the formula, without the literals on variables that are blocked before its
//! round, and none of an earlier step of the round. Those that it might contain are looked for in the lists of its
//! literals alone, with a flag for each of its literals; the flags are given back clean. So a step is checked by
//! itself.
ghost use Rattle.std.specs.Prelude.{◌≡◌, ◌<◌, ◌+◌, ◌*◌, ◌&&◌, ◌||◌, not, [], length, slice_index_or, take, IfOk};
ghost use Rattle.std.specs.Prelude.{IsTrue};
ghost use Rattle.std.specs.List.{list_all, list_any};
ghost use Rattle.lk_model.specs.Formulas.Literal.{is_literal, variable};
ghost use Rattle.lk_model.specs.Formulas.Formula.{positions_of, is_formula};
ghost use Rattle.lk_model.specs.Formulas.Crossed.{no_variable};
ghost use Rattle.lk_model.specs.Documents.Documents.{steps_of};
ghost use Rattle.lk_model.specs.Documents.Form.{are_steps};
ghost use Rattle.lk_model.specs.Checks.RoundChecks.{not_learned};
ghost use Rattle.lk_model.specs.declared.document.Step.{Step as AStep};
ghost use Rattle.lk_model.specs.declared.document.Round.{Round as ARound};
ghost use Rattle.check_rounds.specs.Blocking.{AreBlocks, is_before};
ghost use Rattle.check_rounds.specs.Chains.{IsRoundAt, is_unlearned, step_behind};
ghost use Rattle.check_rounds.specs.Index.{list_of, AreClausesListed, AreRoundsListed};
ghost use Rattle.check_rounds.specs.Learned.{AreKnown, IsKnown, are_open_but_last, is_clause_within, is_step_within};
ghost use Rattle.check_rounds.specs.Learned.{shows_known};
ghost use Rattle.check_tables.specs.LiteralSets.{IsSetOf, has_literal};
ghost use Rattle.check_rounds.specs.Steps.{AreRounds, first_step, is_step_place};

use crate::blocking::is_before;
use crate::chains::{RoundAt, earlier};
use crate::index::Index;
use crate::steps::{Rounds, StepPlace, flag_count, number_of, round_at, step_places};
use check_tables::{LiteralSet, Workers, kept_flags};
use lk_model::{Formula, Lit, OutOfMemory, Round};
use lk_outside::Gate;
use std::alloc::Global;
use std::thread::Threads;

/// The clauses of a formula, and those of the steps of rounds.
#[derive(Drop)]
struct Known {
    clauses: Index,
    steps: Index,
}

impl Known {
    /// The clauses of a formula, and those of the steps of rounds.
    fn of(
        alloc: Global,
        f: &Formula,
        rounds: &[Round],
        blocks: &[usize],
    ) -> Result<Known, OutOfMemory>
        requires blocks { length blocks.now ≡ f.now.vars }
        requires steps { IsTrue (are_steps f.now.vars (length f.now.clauses) (steps_of rounds.now)) }
        ensures clauses_size { IfOk result (λ known. length known.clauses ≡ 2 * f.now.vars + 2) }
        ensures clauses { IfOk result
            (λ known. AreClausesListed blocks.now known.clauses f.now (length f.now.clauses)) }
        ensures steps_size { IfOk result (λ known. length known.steps ≡ 2 * f.now.vars + 2) }
        ensures steps { IfOk result (λ known. AreRoundsListed blocks.now known.steps rounds.now) }
    {
        Ok(Known {
            clauses: Index::of_formula(alloc, f, blocks)?,
            steps: Index::of_rounds(alloc, f, rounds, blocks)?,
        })
    }
}

/// The number of the first step whose clause is not empty and not learned: it holds two complementary
/// literals, or contains a clause of the formula of which a literal is left, or one of an earlier step of
/// its round; or none. What is blocked before a round is in the table of `blocks_of`. The error says that
/// memory ran out.
pub fn not_learned<'a, R: Threads + Sync, G: Gate>(
    workers: &Workers<R, G>,
    alloc: Global,
    f: &'a Formula,
    part: &'a [u32],
    rounds: &'a [Round],
    blocks: &'a [usize],
) -> Result<Option<u64>, OutOfMemory>
    requires part { part.now ≡ positions_of f.now }
    requires steps { IsTrue (are_steps f.now.vars (length f.now.clauses) (steps_of rounds.now)) }
    requires rounds { IsTrue (list_all (λ (r : ARound). are_open_but_last r.steps) rounds.now) }
    requires blocks { AreBlocks f.now 0 rounds.now blocks.now }
    ensures { IfOk result (λ place. place ≡ (not_learned no_variable f.now part.now rounds.now).place) }
{
    let flags = kept_flags(alloc, f.len(), part)?;
    let places = step_places(alloc, rounds)?;
    let known = Known::of(alloc, f, rounds, blocks)?;
    let over = Rounds {
        formula: f,
        part,
        flags: flags.as_slice(),
        blocked_at: blocks,
        rounds,
    };
    workers.for_work(places.len(), flag_count(f)).first_found(
        places.as_slice(),
        &|part| not_learned_in(alloc, &over, &known, part),
    )
}

/// The number of the first such step of those at some places.
fn not_learned_in(
    alloc: Global,
    over: &Rounds,
    known: &Known,
    places: &[StepPlace],
) -> Result<Option<u64>, OutOfMemory>
    requires rounds { AreRounds over.now }
    requires known { AreKnown over.now known.now }
    requires places { IsTrue (list_all (is_step_place over.now.rounds.now) places.now) }
    ensures { IfOk result (λ place. place ≡ first_step is_unlearned over.now places.now) }
{
    let mut held = LiteralSet::new(alloc, over.formula.vars())?;
    for j in 0..places.len() {
        let at = places[j];
        if is_unlearned(&round_at(over, at.round), known, at.index, &mut held) {
            return Ok(Some(number_of(over, at)));
        }
    }
    Ok(None)
}

/// Whether the step at a place has a clause that is not empty and not learned. The flags are clean before
/// and behind.
fn is_unlearned(over: &RoundAt, known: &Known, i: usize, held: &mut LiteralSet) -> bool
    requires known { IsKnown over.now known.now }
    requires place { i < length over.now.steps.now }
    requires held { IsSetOf over.now.formula.now.vars [] held.old }
    ensures test { (s : AStep) → s ≡ slice_index_or over.now.steps.now i s →
        result ≡ is_unlearned (step_behind over.now (take i over.now.steps.now) s) }
    ensures held { IsSetOf over.now.formula.now.vars [] held.new }
{
    let clause = over.steps[i].clause.as_slice();
    held.add_all(clause);
    let contains = contains_known(over, known, i, clause, held);
    held.remove_all(clause);
    contains
}

/// Whether a literal of a clause with flags up shows that the clause is a tautology, or contains a clause of
/// the formula or of an earlier step.
fn contains_known(
    over: &RoundAt,
    known: &Known,
    i: usize,
    clause: &[Lit],
    held: &LiteralSet,
) -> bool
    requires known { IsKnown over.now known.now }
    requires place { i < length over.now.steps.now }
    requires clause { IsTrue (list_all (is_literal over.now.formula.now.vars) clause.now) }
    requires held { length held.now ≡ 2 * over.now.formula.now.vars + 2 }
    ensures test { result ≡ list_any (shows_known over.now known.now i held.now) clause.now }
    ensures formula { IsTrue (is_formula over.now.formula.now) }
{
    let n = over.formula.vars();
    clause
        .iter()
        .any(|l| shows_known(n, over, known, i, held, *l))
}

/// Whether the flag of a literal's complement is up, or a clause of the formula or of an earlier step that is
/// listed under the literal stands within the flags.
fn shows_known(n: u32, over: &RoundAt, known: &Known, i: usize, held: &LiteralSet, l: Lit) -> bool
    requires known { IsKnown over.now known.now }
    requires place { i < length over.now.steps.now }
    requires vars { n ≡ over.now.formula.now.vars }
    requires literal { IsTrue (is_literal n l) }
    requires held { length held.now ≡ 2 * n + 2 }
    ensures { result ≡ shows_known over.now known.now i held.now l }
{
    held.has(l.negated())
        || lists_clause(n, over, known, held, l)
        || lists_step(n, over, known, i, held, l)
}

/// Whether a clause of the formula that is listed under a literal stands within the flags.
fn lists_clause(n: u32, over: &RoundAt, known: &Known, held: &LiteralSet, l: Lit) -> bool
    requires known { IsKnown over.now known.now }
    requires vars { n ≡ over.now.formula.now.vars }
    requires literal { IsTrue (is_literal n l) }
    requires held { length held.now ≡ 2 * n + 2 }
    ensures { result ≡ list_any (is_clause_within over.now held.now) (list_of known.now.clauses l) }
{
    known
        .clauses
        .numbers(l)
        .iter()
        .any(|p| is_clause_within(over, *p, held))
}

/// Whether some literal of the clause at a position is left, and the flags of all that are left are up.
fn is_clause_within(over: &RoundAt, p: u64, held: &LiteralSet) -> bool
    requires blocks { length over.now.blocked_at.now ≡ over.now.formula.now.vars }
    requires held { length held.now ≡ 2 * over.now.formula.now.vars + 2 }
    ensures { result ≡ is_clause_within over.now held.now p }
{
    if p == 0 || p > u64::from(over.formula.len()) {
        return false;
    }
    let clause = over.formula.clause(p as u32);
    has_left(over.round, over.blocked_at, clause, held)
        && is_left(over.round, over.blocked_at, clause)
}

/// Whether the flags are up of all literals whose variables are not blocked before the round k.
fn has_left(k: usize, blocks: &[usize], clause: &[Lit], held: &LiteralSet) -> bool
    requires clause { IsTrue (list_all (is_literal (length blocks.now)) clause.now) }
    requires held { length held.now ≡ 2 * length blocks.now + 2 }
    ensures { result ≡ list_all (λ l. is_before k blocks.now (variable l) || has_literal held.now l) clause.now }
{
    clause
        .iter()
        .all(|l| is_crossed_or_held(k, blocks, held, *l))
}

fn is_crossed_or_held(k: usize, blocks: &[usize], held: &LiteralSet, l: Lit) -> bool
    requires literal { IsTrue (is_literal (length blocks.now) l) }
    requires held { length held.now ≡ 2 * length blocks.now + 2 }
    ensures { result ≡ (is_before k blocks.now (variable l) || has_literal held.now l) }
{
    is_before(k, blocks, l.var()) || held.has(l)
}

/// Whether there is such a literal.
fn is_left(k: usize, blocks: &[usize], clause: &[Lit]) -> bool
    requires { IsTrue (list_all (is_literal (length blocks.now)) clause.now) }
    ensures { result ≡ list_any (λ l. not (is_before k blocks.now (variable l))) clause.now }
{
    clause.iter().any(|l| is_uncrossed(k, blocks, *l))
}

fn is_uncrossed(k: usize, blocks: &[usize], l: Lit) -> bool
    requires { IsTrue (is_literal (length blocks.now) l) }
    ensures { result ≡ not (is_before k blocks.now (variable l)) }
{
    !is_before(k, blocks, l.var())
}

/// Whether a clause of an earlier step that is listed under a literal stands within the flags.
fn lists_step(n: u32, over: &RoundAt, known: &Known, i: usize, held: &LiteralSet, l: Lit) -> bool
    requires known { IsKnown over.now known.now }
    requires place { i < length over.now.steps.now }
    requires vars { n ≡ over.now.formula.now.vars }
    requires literal { IsTrue (is_literal n l) }
    requires held { length held.now ≡ 2 * n + 2 }
    ensures { result ≡ list_any (is_step_within over.now i held.now) (list_of known.now.steps l) }
{
    known
        .steps
        .numbers(l)
        .iter()
        .any(|k| is_step_within(over, i, *k, held))
}

/// Whether a number is that of an earlier step whose clause stands within the flags.
fn is_step_within(over: &RoundAt, i: usize, k: u64, held: &LiteralSet) -> bool
    requires round { IsRoundAt over.now }
    requires place { i < length over.now.steps.now }
    requires held { length held.now ≡ 2 * over.now.formula.now.vars + 2 }
    ensures { result ≡ is_step_within over.now i held.now k }
{
    match earlier(over, i, k) {
        Some(clause) => held.has_all(clause),
        None => false,
    }
}
