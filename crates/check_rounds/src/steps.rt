//! The steps of a document, one after another through all its rounds.
//!
//! A step is found by the index of its round and its own index there, and is checked by itself. So a list of these
//! places is cut into parts, and each part is gone through with tables of its own.
ghost use Rattle.std.specs.Prelude.{◌≡◌, ◌<◌, ◌++◌, length, IfOk, OnOk, IsTrue};
ghost use Rattle.check_rounds.specs.Steps.{IsRoundOf, is_step_place, places_from, places_in_round, step_at};

use crate::chains::RoundAt;
use lk_model::{Formula, OutOfMemory, Round, Step};
use std::alloc::Global;

/// The rounds of a document, and what their chains may name: the clauses of a formula at the positions of a
/// part, whose flags are up, without the literals on variables that are blocked before the round.
#[derive(Clone, Copy)]
pub(crate) struct Rounds<'a> {
    pub formula: &'a Formula,
    pub part: &'a [u32],
    pub flags: &'a [bool],
    pub blocked_at: &'a [usize],
    pub rounds: &'a [Round],
}

/// The place of a step: the index of its round, and its own index there.
#[derive(Clone, Copy)]
pub(crate) struct StepPlace {
    pub round: usize,
    pub index: usize,
}

/// The places of all steps of rounds, in their order.
pub(crate) fn step_places(alloc: Global, rounds: &[Round]) -> Result<Vec<StepPlace>, OutOfMemory>
    ensures { IfOk result (λ places. places.items ≡ places_from 0 rounds.now) }
{
    let mut places = Vec::new(alloc);
    for k in 0..rounds.len() {
        add_places(k, rounds[k].steps.len(), &mut places)?;
    }
    Ok(places)
}

/// Adds the first `count` places of a round.
fn add_places(round: usize, count: usize, places: &mut Vec<StepPlace>) -> Result<(), OutOfMemory>
    ensures { OnOk result (places.new.items ≡ places.old.items ++ places_in_round round 0 count) }
{
    for index in 0..count {
        places.push(StepPlace { round, index })?;
    }
    Ok(())
}

/// How many flags a set of literals over the formula's variables has.
pub(crate) fn flag_count(f: &Formula) -> usize {
    2 * f.vars() as usize + 2
}

/// How many turns the chains of rounds have together, or the greatest number.
pub(crate) fn turn_count(rounds: &[Round]) -> usize {
    let mut count: usize = 0;
    for round in rounds {
        count = count.saturating_add(turns_of(round.steps.as_slice()));
    }
    count
}

/// How many turns the chains of steps have together, or the greatest number.
fn turns_of(steps: &[Step]) -> usize {
    let mut count: usize = 0;
    for step in steps {
        count = count.saturating_add(step.turns.len());
    }
    count
}

/// The steps of the round at an index, and what their chains may name.
pub(crate) fn round_at<'a>(over: &Rounds<'a>, k: usize) -> RoundAt<'a>
    requires { k < length over.now.rounds.now }
    ensures { IsRoundOf over.now k result }
{
    RoundAt {
        formula: over.formula,
        part: over.part,
        flags: over.flags,
        blocked_at: over.blocked_at,
        round: k,
        steps: over.rounds[k].steps.as_slice(),
    }
}

/// The number of the step at a place.
pub(crate) fn number_of(over: &Rounds, at: StepPlace) -> u64
    requires { IsTrue (is_step_place over.now.rounds.now at) }
    ensures { result ≡ (step_at over.now at).step.number }
{
    over.rounds[at.round].steps.as_slice()[at.index].number
}
