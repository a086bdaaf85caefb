//! The check of the chains of a document.
//!
//! A step is checked by itself: its clause stands in the document, and so do those of the earlier steps that its chain
//! names, as in the traces of resolution proofs and in clausal proofs with hints (TraceCheck, LRAT). Here each turn
//! names the literal on which it resolves, so that nothing is searched. The clauses of the formula are not copied: the
//! literals on blocked variables are passed over, by the table of the rounds that block them. A number leads to its
//! step by its offset.
ghost use Rattle.std.specs.Prelude.{◌≡◌, ◌≤◌, ◌<◌, ◌∷◌, [], ℤ, List, true, false, None, Some, length, option_and_then};
ghost use Rattle.std.specs.Prelude.{option_map, slice_index_or, IfOk, IfSome, OnOk, IsTrue};
ghost use Rattle.std.specs.List.{list_all};
ghost use Rattle.lk_model.specs.Formulas.Literal.{is_literal, contains};
ghost use Rattle.lk_model.specs.Lists.{among};
ghost use Rattle.lk_model.specs.Formulas.Formula.{clause_at};
ghost use Rattle.lk_model.specs.declared.document.Step.{Step as AStep};
ghost use Rattle.lk_model.specs.Formulas.Lean.{are_positions};
ghost use Rattle.lk_model.specs.Formulas.Crossed.{no_variable, crossed_out};
ghost use Rattle.lk_model.specs.Chains.Chain.{clause_named, chain_clause, resolvent, states_its_clause};
ghost use Rattle.lk_model.specs.Documents.Documents.{steps_of};
ghost use Rattle.lk_model.specs.Documents.Form.{are_steps};
ghost use Rattle.lk_model.specs.Checks.RoundChecks.{bad_step};
ghost use Rattle.check_rounds.specs.Blocking.{AreBlocks, is_before};
ghost use Rattle.check_rounds.specs.Chains.{IsRoundAt, IsWork, IsMade, premises_at, round_of, step_numbered, misstates};
ghost use Rattle.check_rounds.specs.Repeats.{IsIdle, IsNamed, IsRepeated};
ghost use Rattle.check_rounds.specs.Steps.{AreRounds, first_step, is_step_place};

use crate::blocking::{blocks_of, is_before};
use crate::repeated::Repeated;
use crate::steps::{Rounds, StepPlace, flag_count, number_of, round_at, step_places, turn_count};
use crate::work::Work;
use check_tables::{Workers, kept_flags};
use lk_model::{Formula, Lit, OutOfMemory, Round, Step, Turn};
use lk_outside::Gate;
use std::alloc::Global;
use std::slice;
use std::thread::Threads;

/// What the chains of a round may name: the clauses of a formula at the positions of a part, whose flags
/// are up, without the literals on variables that are blocked before the round; and the round's steps.
#[derive(Clone, Copy)]
pub(crate) struct RoundAt<'a> {
    pub formula: &'a Formula,
    pub part: &'a [u32],
    pub flags: &'a [bool],
    pub blocked_at: &'a [usize],
    pub round: usize,
    pub steps: &'a [Step],
}

/// The number of the first step whose chain has not the stated clause, or none: a number stands for
/// nothing, a turn can't be made, or the clause is another one. Chains may name the clauses of the formula
/// at the positions of the part. What is blocked before a round is in the table of `blocks_of`. The error
/// says that memory ran out.
pub fn bad_step<'a, R: Threads + Sync, G: Gate>(
    workers: &Workers<R, G>,
    alloc: Global,
    f: &'a Formula,
    part: &'a [u32],
    rounds: &'a [Round],
    blocks: &'a [usize],
) -> Result<Option<u64>, OutOfMemory>
    requires part { IsTrue (are_positions f.now part.now) }
    requires steps { IsTrue (are_steps f.now.vars (length f.now.clauses) (steps_of rounds.now)) }
    requires blocks { AreBlocks f.now 0 rounds.now blocks.now }
    ensures { IfOk result (λ place. place ≡ (bad_step no_variable f.now part.now rounds.now).place) }
{
    let flags = kept_flags(alloc, f.len(), part)?;
    let places = step_places(alloc, rounds)?;
    let over = Rounds {
        formula: f,
        part,
        flags: flags.as_slice(),
        blocked_at: blocks,
        rounds,
    };
    workers
        .for_work(
            turn_count(rounds).saturating_add(places.len()),
            flag_count(f).saturating_add(flag_count(f)),
        )
        .first_found(places.as_slice(), &|part| bad_step_in(alloc, &over, part))
}

/// The number of the first step of a round that does not state the clause of its chain, or none. Chains
/// may name the clauses of a formula at the positions of a part, which ascend, and earlier steps. No
/// variable is blocked before the round. The error says that memory ran out.
///
/// If there is none, and the last clause and no other is empty, the clauses of the part have no model
/// (`refutation_law` of `general_laws`).
pub fn misstated_step(
    alloc: Global,
    f: &Formula,
    part: &[u32],
    round: &Round,
) -> Result<Option<u64>, OutOfMemory>
    requires part { IsTrue (are_positions f.now part.now) }
    requires steps { IsTrue (are_steps f.now.vars (length f.now.clauses) round.now.steps) }
    ensures { IfOk result (λ place. place ≡ (bad_step no_variable f.now part.now (round.now ∷ [])).place) }
{
    let rounds = slice::from_ref(round);
    let flags = kept_flags(alloc, f.len(), part)?;
    let blocks = blocks_of(alloc, f, rounds)?;
    let places = step_places(alloc, rounds)?;
    let over = Rounds {
        formula: f,
        part,
        flags: flags.as_slice(),
        blocked_at: blocks.as_slice(),
        rounds,
    };
    bad_step_in(alloc, &over, places.as_slice())
}

/// The number of the first step of those at some places that does not state the clause of its chain, or none.
fn bad_step_in(
    alloc: Global,
    over: &Rounds,
    places: &[StepPlace],
) -> Result<Option<u64>, OutOfMemory>
    requires rounds { AreRounds over.now }
    requires places { IsTrue (list_all (is_step_place over.now.rounds.now) places.now) }
    ensures { IfOk result (λ place. place ≡ first_step misstates over.now places.now) }
{
    let mut work = Work::new(alloc, over.formula.vars())?;
    let mut repeated = Repeated::new(alloc, over.formula.vars())?;
    first_misstated(over, places, &mut work, &mut repeated)
}

/// What `bad_step_in` returns, by a work that is empty before, while no clause is kept.
fn first_misstated(
    over: &Rounds,
    places: &[StepPlace],
    work: &mut Work,
    repeated: &mut Repeated,
) -> Result<Option<u64>, OutOfMemory>
    requires rounds { AreRounds over.now }
    requires places { IsTrue (list_all (is_step_place over.now.rounds.now) places.now) }
    requires work { IsWork over.now.formula.now.vars [] work.old }
    requires repeated { IsIdle over.now.formula.now.vars repeated.old }
    ensures { IfOk result (λ place. place ≡ first_step misstates over.now places.now) }
{
    for j in 0..places.len() {
        let at = places[j];
        if !states_its_clause(&round_at(over, at.round), at.index, work, repeated)? {
            return Ok(Some(number_of(over, at)));
        }
    }
    Ok(None)
}

/// Whether the step at a place states the clause of its chain. The work is empty before and behind, and no clause is
/// kept.
fn states_its_clause(
    over: &RoundAt,
    i: usize,
    work: &mut Work,
    repeated: &mut Repeated,
) -> Result<bool, OutOfMemory>
    requires round { IsRoundAt over.now }
    requires place { i < length over.now.steps.now }
    requires work { IsWork over.now.formula.now.vars [] work.old }
    requires repeated { IsIdle over.now.formula.now.vars repeated.old }
    ensures stated { IfOk result (λ stated. (s : AStep) → s ≡ slice_index_or over.now.steps.now i s →
        stated ≡ states_its_clause (premises_at over.now i) s) }
    ensures work { OnOk result (IsWork over.now.formula.now.vars [] work.new) }
    ensures repeated { OnOk result (IsIdle over.now.formula.now.vars repeated.new) }
{
    let step = &over.steps[i];
    let is_made = make_clause(over, i, step, work, repeated)?;
    repeated.forget();
    let stated = is_made && work.is_clause(over.formula.vars(), step.clause.as_slice());
    work.clear();
    Ok(stated)
}

/// Makes the work the clause of a step's chain, where there is one.
fn make_clause(
    over: &RoundAt,
    i: usize,
    step: &Step,
    work: &mut Work,
    repeated: &mut Repeated,
) -> Result<bool, OutOfMemory>
    requires round { IsRoundAt over.now }
    requires place { i < length over.now.steps.now }
    requires step { step.now ≡ slice_index_or over.now.steps.now i step.now }
    requires work { IsWork over.now.formula.now.vars [] work.old }
    requires repeated { IsIdle over.now.formula.now.vars repeated.old }
    ensures made { IfOk result
        (λ made. IsMade over.now.formula.now.vars
        (chain_clause (premises_at over.now i) step.now.first step.now.turns) made work.new) }
    ensures repeated { OnOk result (IsRepeated over.now.formula.now.vars work.new repeated.new) }
{
    if !start(over, i, step.first, work)? {
        return Ok(false);
    }
    for turn in step.turns.as_slice() {
        if !take(over, i, *turn, work, repeated)? {
            return Ok(false);
        }
    }
    Ok(true)
}

/// Makes the empty work the first clause of the chain of the step at a place, where there is one.
fn start(over: &RoundAt, i: usize, first: u64, work: &mut Work) -> Result<bool, OutOfMemory>
    requires round { IsRoundAt over.now }
    requires place { i < length over.now.steps.now }
    requires first { 0 < first }
    requires work { IsWork over.now.formula.now.vars [] work.old }
    ensures { IfOk result
        (λ made. IsMade over.now.formula.now.vars (clause_named (premises_at over.now i) first) made work.new) }
{
    match named(over, i, first) {
        Some(clause) => {
            let k = round_of(over, first);
            work.add_all(over.formula.vars(), k, over.blocked_at, clause)?;
            Ok(true)
        }
        None => Ok(false),
    }
}

/// Takes a turn of the chain of the step at a place, where it can be made.
fn take(
    over: &RoundAt,
    i: usize,
    turn: Turn,
    work: &mut Work,
    repeated: &mut Repeated,
) -> Result<bool, OutOfMemory>
    requires round { IsRoundAt over.now }
    requires place { i < length over.now.steps.now }
    requires literal { IsTrue (is_literal over.now.formula.now.vars turn.lit) }
    requires first { 0 < turn.with }
    requires work { (c : List ℤ) × IsWork over.now.formula.now.vars c work.old }
    requires repeated { IsRepeated over.now.formula.now.vars work.old repeated.old }
    requires named { IsNamed (premises_at over.now i) repeated.old }
    ensures made { IfOk result (λ made. (c : List ℤ) → IsWork over.now.formula.now.vars c work.old
        → IsMade over.now.formula.now.vars
        (option_and_then (resolvent turn.lit c) (clause_named (premises_at over.now i) turn.with)) made work.new) }
    ensures repeated { OnOk result (IsRepeated over.now.formula.now.vars work.new repeated.new) }
    ensures named { OnOk result (IsNamed (premises_at over.now i) repeated.new) }
{
    let n = over.formula.vars();
    if turn.with == repeated.number {
        return repeated.take(n, over.blocked_at, turn.lit, work);
    }
    let Some(clause) = named(over, i, turn.with) else {
        return Ok(false);
    };
    let k = round_of(over, turn.with);
    let against = turn.lit.negated();
    if !work.has(turn.lit) || !holds(k, over.blocked_at, clause, against) {
        return Ok(false);
    }
    work.remove(turn.lit);
    work.add_others(n, k, over.blocked_at, clause, against)?;
    repeated.lose(turn.lit)?;
    repeated.note(turn.with, n, k, over.blocked_at, clause, against)?;
    Ok(true)
}

/// Whether a clause holds a literal, and its variable is not blocked before the round k.
fn holds(k: usize, blocks: &[usize], clause: &[Lit], l: Lit) -> bool
    requires { IsTrue (is_literal (length blocks.now) l) }
    ensures { result ≡ contains (crossed_out (is_before k blocks.now) clause.now) l }
{
    !is_before(k, blocks, l.var()) && stands_in(clause, l)
}

/// Whether a literal stands in a clause.
fn stands_in(clause: &[Lit], l: Lit) -> bool
    ensures { result ≡ contains clause.now l }
{
    clause.contains(&l)
}

/// The literals of what a number stands for in the chain of the step at a place, with those on blocked
/// variables; `None` where it stands for nothing.
fn named<'a>(over: &RoundAt<'a>, i: usize, k: u64) -> Option<&'a [Lit]>
    requires round { IsRoundAt over.now }
    requires place { i < length over.now.steps.now }
    requires first { 0 < k }
    ensures none { result ≡ None → clause_named (premises_at over.now i) k ≡ None }
    ensures some { IfSome result
        (λ c. clause_named (premises_at over.now i) k ≡ Some
        (crossed_out (is_before (round_of over.now k) over.now.blocked_at.now) c.now)) }
    ensures literals { IfSome result (λ c. IsTrue (list_all (is_literal over.now.formula.now.vars) c.now)) }
{
    if k <= u64::from(over.formula.len()) {
        position(over, k as u32)
    } else {
        earlier(over, i, k)
    }
}

/// The clause of a number's step, if it is one before the step at a place in the round.
pub(crate) fn earlier<'a>(over: &RoundAt<'a>, i: usize, k: u64) -> Option<&'a [Lit]>
    requires round { IsRoundAt over.now }
    requires place { i < length over.now.steps.now }
    ensures none { result ≡ None → step_numbered over.now i k ≡ None }
    ensures some { IfSome result (λ c. option_map (λ (s : AStep). s.clause) (step_numbered over.now i k) ≡ Some c.now) }
    ensures literals { IfSome result (λ c. IsTrue (list_all (is_literal over.now.formula.now.vars) c.now)) }
{
    let number = over.steps[i].number;
    if k >= number {
        return None;
    }
    let back = (number - k) as usize;
    if back <= i {
        Some(over.steps[i - back].clause.as_slice())
    } else {
        None
    }
}

/// The literals of the clause at a position, if it is one of the part.
fn position<'a>(over: &RoundAt<'a>, p: u32) -> Option<&'a [Lit]>
    requires round { IsRoundAt over.now }
    requires first { 0 < p }
    requires last { p ≤ length over.now.formula.now.clauses }
    ensures none { result ≡ None → among over.now.part.now p ≡ false }
    ensures some { IfSome result (λ c. (among over.now.part.now p ≡ true) ×
        (c.now ≡ clause_at over.now.formula.now p)) }
    ensures literals { IfSome result (λ c. IsTrue (list_all (is_literal over.now.formula.now.vars) c.now)) }
{
    if over.flags[p as usize - 1] {
        Some(over.formula.clause(p))
    } else {
        None
    }
}

/// The round before which variables are blocked in what a number stands for: a step is taken as it is.
fn round_of(over: &RoundAt, k: u64) -> usize
    ensures { result ≡ round_of over.now k }
{
    if k <= u64::from(over.formula.len()) {
        over.round
    } else {
        0
    }
}
