//! The steps of a log.
ghost use Rattle.std.specs.Prelude.{◌≡◌, IfOk};
ghost use Rattle.refutation_log.specs.Derivation.{step_of};

use crate::turns::Turns;
use lk_model::{List, Lit, OutOfMemory, Step, Turn};
use std::alloc::Global;
use std::marker::Model;

/// A step as a log holds it. Contracts see the step of a round.
#[derive(Drop)]
pub(crate) struct LoggedStep {
    number: u64,
    clause: List<Lit>,
    first: u64,
    turns: Turns,
}

impl Model for LoggedStep {
    ghost use Rattle.lk_model.specs.declared.document.Step.{Step};

    ghost Value = { Step };

    ghost view = { λ s. record {
      number = s.number;
      clause = s.clause;
      first = s.first;
      turns = s.turns;
    } };
}

impl LoggedStep {
    /// The step of a chain.
    pub fn new(
        alloc: Global,
        number: u64,
        clause: &[Lit],
        first: u64,
        turns: &[Turn],
    ) -> Result<LoggedStep, OutOfMemory>
        ensures { IfOk result (λ s. s ≡ step_of number clause.now first turns.now) }
    {
        Ok(LoggedStep {
            number,
            clause: List::from_vec(Vec::from_slice(alloc, clause)?),
            first,
            turns: Turns::of(alloc, turns)?,
        })
    }

    /// The step of a round, whose turns are let go.
    pub fn of(alloc: Global, step: Step) -> Result<LoggedStep, OutOfMemory>
        ensures { IfOk result (λ s. s ≡ step) }
    {
        let turns = Turns::of(alloc, step.turns.as_slice())?;
        Ok(LoggedStep {
            number: step.number,
            clause: step.clause,
            first: step.first,
            turns,
        })
    }

    /// Its number.
    pub fn number(&self) -> u64
        ensures { result ≡ self.now.number }
    {
        self.number
    }

    /// Its clause.
    pub fn clause(&self) -> &[Lit]
        ensures { result.now ≡ self.now.clause }
    {
        self.clause.as_slice()
    }

    /// The first clause of its chain.
    pub fn first(&self) -> u64
        ensures { result ≡ self.now.first }
    {
        self.first
    }

    /// The turns of its chain.
    pub fn turns(&self) -> &Turns
        ensures { result.now ≡ self.now.turns }
    {
        &self.turns
    }

    /// The step of a round.
    pub fn into_step(self, alloc: Global) -> Result<Step, OutOfMemory>
        ensures { IfOk result (λ s. s ≡ self) }
    {
        Ok(Step {
            number: self.number,
            clause: self.clause,
            first: self.first,
            turns: self.turns.into_list(alloc)?,
        })
    }
}

/// Logs the steps of a round, one after another, so that no step is held twice but the one at hand.
pub(crate) fn logged(alloc: Global, steps: Vec<Step>) -> Result<Vec<LoggedStep>, OutOfMemory>
    ensures { IfOk result (λ v. v.items ≡ steps.items) }
{
    let mut logged = Vec::with_capacity(alloc, steps.len())?;
    for step in steps {
        logged.push(LoggedStep::of(alloc, step)?)?;
    }
    Ok(logged)
}

/// Takes the steps out of a log, one after another.
pub(crate) fn unlogged(alloc: Global, steps: Vec<LoggedStep>) -> Result<Vec<Step>, OutOfMemory>
    ensures { IfOk result (λ v. v.items ≡ steps.items) }
{
    let mut unlogged = Vec::with_capacity(alloc, steps.len())?;
    for step in steps {
        unlogged.push(step.into_step(alloc)?)?;
    }
    Ok(unlogged)
}
