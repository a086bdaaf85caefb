//! Logs of steps.
//!
//! A step states a clause with the resolution chain that gives it: a first clause, and then one resolution after
//! another, each with a clause of the formula or an earlier step. So a step is checked by itself, as in the traces of
//! resolution proofs and in clausal proofs with hints (TraceCheck, LRAT). That a clause is used in a refutation shows
//! that no autarky touches it: autarkies leave the variables of resolution refutations unset (Kullmann,
//! "Investigations on Autark Assignments", 2000).
//!
//! Here each turn names the literal on which it resolves, so that nothing is searched; the clauses of a formula may
//! have literals crossed out; and no step is ever deleted, so a step's place is its number less the first one.
ghost use Rattle.std.specs.Prelude.{◌≡◌, ◌-◌, ◌<◌, ◌≤◌, ◌^◌, ◌∷◌, ◌↔◌, [], Some, length, IfOk, OnOk, OnErr, IsTrue};
ghost use Rattle.std.specs.Prelude.{IsSome};
ghost use Rattle.lk_model.specs.Formulas.Formula.{positions_of};
ghost use Rattle.lk_model.specs.Held.VariableSets.{IsCrossed};
ghost use Rattle.lk_model.specs.Held.VariableSets.{premises_of};
ghost use Rattle.lk_model.specs.Chains.Chain.{clause_named, after_turns, chain_clause};
ghost use Rattle.lk_model.specs.Chains.Rounds.{is_refutation, used_positions};
ghost use Rattle.refutation_log.specs.Derivation.{next_number, clause_of_step, last_clause_of, is_ascending, Extends};
ghost use Rattle.refutation_log.specs.Derivation.{IsLog};
ghost use Rattle.refutation_log.specs.Trimmed.{trimmed, names_positions_below};
ghost use Rattle.refutation_log.specs.SameClause.{IsSameClause};

use crate::axioms::{marked_positions, marks_over, positions_used};
use crate::chain_clause::FlaggedClause;
use crate::logged_step::{LoggedStep, logged, unlogged};
use crate::numbers::renumbered;
use crate::reach::marks_of;
use crate::work::Work;
use lk_model::{Crossed, List, Lit, OutOfMemory, Round, Turn};
use std::alloc::Global;
use std::marker::Model;
use std::mem;

/// Steps that are numbered one after another from a first number on. Each states the clause of its
/// chain, in order: ascending by variable, the positive literal first.
#[derive(Drop)]
pub struct Log {
    first: u64,
    steps: Vec<LoggedStep>,
    // The clause of the chain that was pushed last; its flags serve the next one.
    flagged: FlaggedClause,
}

impl Model for Log {
    ghost use Rattle.refutation_log.specs.Derivation.{Derivation, IsLog};

    ghost Value = { Derivation };

    ghost view = { λ l. record { first = l.first; steps = l.steps.items } };

    ghost invariant = { λ l. IsLog l.first l.steps.items };
}

/// What a refutation needs: its steps, and the positions that they use, ascending.
#[derive(Drop)]
pub struct Trimmed {
    pub round: Round,
    pub used: List<u32>,
}

impl Log {
    /// The log without a step, whose steps will be numbered from `next`.
    pub fn new(alloc: Global, next: u64) -> Log
        ensures first { result.first ≡ next }
        ensures steps { result.steps ≡ [] }
    {
        Log {
            first: next,
            steps: Vec::new(alloc),
            flagged: FlaggedClause::new(alloc),
        }
    }

    /// The log whose steps, numbered from `first` on, are those of a round, as `into_round` gives them.
    pub fn from_round(alloc: Global, first: u64, round: Round) -> Result<Log, OutOfMemory>
        requires log { IsLog first round.steps }
        ensures first { IfOk result (λ log. log.first ≡ first) }
        ensures steps { IfOk result (λ log. log.steps ≡ round.steps) }
    {
        Ok(Log {
            first,
            steps: logged(alloc, round.steps.into_vec())?,
            flagged: FlaggedClause::new(alloc),
        })
    }

    /// The number of the first step.
    pub fn first(&self) -> u64
        ensures { result ≡ self.now.first }
    {
        self.first
    }

    /// How many steps there are.
    pub fn len(&self) -> usize
        ensures count { result ≡ length self.now.steps }
        ensures log { IsLog self.now.first self.now.steps }
    {
        self.steps.len()
    }

    /// Whether there is a step of this number.
    pub fn has(&self, k: u64) -> bool
        ensures { IsTrue result ↔ IsSome (clause_of_step self.now.steps k) }
    {
        k >= self.first && k - self.first < self.steps.len() as u64
    }

    /// Whether a chain has a clause over all clauses of a formula and the steps of the log, which are
    /// numbered above them: each number that it names stands for one of these, and each turn can be made. A
    /// turn costs no more than to read the other clause.
    pub fn has_chain(
        &mut self,
        over: &Crossed,
        first: u64,
        turns: &[Turn],
    ) -> Result<bool, OutOfMemory>
        requires crossed { IsCrossed over.now }
        requires whole { over.now.part.now ≡ positions_of over.now.formula.now }
        requires past { length over.now.formula.now.clauses < self.old.first }
        ensures chain { IfOk result
            (λ has. IsTrue has ↔ IsSome (chain_clause (premises_of over.now self.old.steps) first turns.now)) }
        ensures same { self.new ≡ self.old }
    {
        let mut flagged = mem::replace(
            &mut self.flagged,
            FlaggedClause::new(*self.steps.allocator()),
        );
        let has = self.goes(over, first, turns, &mut flagged);
        self.flagged = flagged;
        has
    }

    /// Appends the step with the clause of a chain, and returns its number, which must be below
    /// 2^64 - 1. The chain must have a clause over `over` and the steps of the log, which are numbered
    /// above the formula's clauses. On an error the log is unchanged.
    pub fn push_chain(
        &mut self,
        over: &Crossed,
        first: u64,
        turns: &[Turn],
    ) -> Result<u64, OutOfMemory>
        requires crossed { IsCrossed over.now }
        requires past { length over.now.formula.now.clauses < self.old.first }
        requires room { next_number self.old < 2 ^ 64 - 1 }
        requires chain { IsSome (chain_clause (premises_of over.now self.old.steps) first turns.now) }
        ensures number { IfOk result (λ k. k ≡ next_number self.old) }
        ensures ok { OnOk result (Extends over.now self.old first turns.now self.new) }
        ensures err { OnErr result (self.new ≡ self.old) }
        ensures log { IsLog self.new.first self.new.steps }
    {
        let mut flagged = mem::replace(
            &mut self.flagged,
            FlaggedClause::new(*self.steps.allocator()),
        );
        let clause = self.clause_of_chain(over, first, turns, &mut flagged);
        self.flagged = flagged;
        let clause = clause?;
        let number = self.first + self.steps.len() as u64;
        let alloc = *self.steps.allocator();
        let step = LoggedStep::new(alloc, number, clause.as_slice(), first, turns)?;
        self.steps.push(step)?;
        Ok(number)
    }

    /// The clause of the last step, in order. There must be a step.
    pub fn last_clause(&self) -> &[Lit]
        requires { 0 < length self.now.steps }
        ensures value { last_clause_of self.now.steps ≡ Some result.now }
        ensures order { IsTrue (is_ascending result.now) }
        ensures log { IsLog self.now.first self.now.steps }
    {
        self.steps[self.steps.len() - 1].clause()
    }

    /// The clause of the step of a number, in order. There must be such a step.
    pub fn clause(&self, k: u64) -> &[Lit]
        requires { IsSome (clause_of_step self.now.steps k) }
        ensures value { clause_of_step self.now.steps k ≡ Some result.now }
        ensures order { IsTrue (is_ascending result.now) }
        ensures log { IsLog self.now.first self.now.steps }
    {
        self.steps[(k - self.first) as usize].clause()
    }

    /// This log without the memory that served its last chain: a table as long as its greatest
    /// variable. A log that gets no more steps needs none.
    pub fn rest(self) -> Log
        ensures { result ≡ self }
    {
        let alloc = *self.steps.allocator();
        Log {
            first: self.first,
            steps: self.steps,
            flagged: FlaggedClause::new(alloc),
        }
    }

    /// The positions that the steps use, ascending: those that are reached backwards from the last one.
    /// The log's numbers must be above those of the formula's clauses.
    pub fn used(&self, over: &Crossed) -> Result<List<u32>, OutOfMemory>
        requires { length over.now.formula.now.clauses < self.now.first }
        ensures { IfOk result (λ ps. ps ≡ used_positions over.now.formula.now (record { steps = self.now.steps })) }
    {
        positions_used(*self.steps.allocator(), over, self.first, &self.steps)
    }

    /// All steps.
    pub fn into_round(self) -> Result<Round, OutOfMemory>
        ensures steps { IfOk result (λ r. r.steps ≡ self.steps) }
        ensures log { IsLog self.first self.steps }
    {
        let steps = self.into_steps();
        let alloc = *steps.allocator();
        Ok(Round {
            steps: List::from_vec(unlogged(alloc, steps)?),
        })
    }

    /// The steps that are reached backwards from the last one, in their order, and numbered from
    /// `next`. The last clause must be empty. `next` must be at most the log's first number, and
    /// greater than every position that a chain names.
    pub fn trim(self, next: u64) -> Result<Round, OutOfMemory>
        requires whole { IsTrue (is_refutation self.steps) }
        requires least { next ≤ self.first }
        requires positions { IsTrue (names_positions_below next self.first self.steps) }
        ensures steps { IfOk result (λ r. r.steps ≡ trimmed next self.steps) }
        ensures log { IsLog self.first self.steps }
    {
        let first = self.first();
        let steps = self.into_steps();
        let alloc = *steps.allocator();
        let marks = marks_of(alloc, 0, first, &steps)?;
        Ok(Round {
            steps: renumbered(alloc, steps, &marks, next)?,
        })
    }

    /// What `trim` gives, and what `used` gives, by one search backwards from the last step.
    pub fn trim_used(self, over: &Crossed, next: u64) -> Result<Trimmed, OutOfMemory>
        requires past { length over.now.formula.now.clauses < self.first }
        requires whole { IsTrue (is_refutation self.steps) }
        requires least { next ≤ self.first }
        requires positions { IsTrue (names_positions_below next self.first self.steps) }
        ensures steps { IfOk result (λ t. t.round.steps ≡ trimmed next self.steps) }
        ensures used { IfOk result
            (λ t. t.used ≡ used_positions over.now.formula.now (record { steps = self.steps })) }
        ensures log { IsLog self.first self.steps }
    {
        let first = self.first();
        let steps = self.into_steps();
        let alloc = *steps.allocator();
        let marks = marks_over(alloc, over, first, &steps)?;
        let used = marked_positions(alloc, over, &marks)?;
        let round = Round {
            steps: renumbered(alloc, steps, &marks, next)?,
        };
        Ok(Trimmed { round, used })
    }

    // Its steps.
    fn into_steps(self) -> Vec<LoggedStep>
        ensures steps { result.items ≡ self.steps }
        ensures log { IsLog self.first result.items }
    {
        self.steps
    }

    // The clause after the last turn.
    fn clause_of_chain(
        &self,
        over: &Crossed,
        first: u64,
        turns: &[Turn],
        flagged: &mut FlaggedClause,
    ) -> Result<Work, OutOfMemory>
        requires crossed { IsCrossed over.now }
        requires past { length over.now.formula.now.clauses < self.now.first }
        requires chain { IsSome (chain_clause (premises_of over.now self.now.steps) first turns.now) }
        ensures { IfOk result
            (λ w. IsSameClause (Some w) (chain_clause (premises_of over.now self.now.steps) first turns.now)) }
    {
        flagged.clear();
        self.begin(over, first, flagged)?;
        for turn in turns {
            self.take(over, *turn, flagged)?;
        }
        Ok(flagged.take())
    }

    /// Begins with the clause that a number stands for.
    pub(crate) fn begin(
        &self,
        over: &Crossed,
        k: u64,
        flagged: &mut FlaggedClause,
    ) -> Result<(), OutOfMemory>
        requires crossed { IsCrossed over.now }
        requires past { length over.now.formula.now.clauses < self.now.first }
        requires named { IsSome (clause_named (premises_of over.now self.now.steps) k) }
        requires empty { flagged.old ≡ [] }
        ensures { OnOk result (IsSameClause (Some flagged.new) (clause_named (premises_of over.now self.now.steps) k)) }
    {
        if k <= u64::from(over.formula.len()) {
            flagged.put_crossed(over.formula.clause(k as u32), over.blocked)
        } else {
            flagged.put_all(self.clause(k))
        }
    }

    /// Takes a turn.
    pub(crate) fn take(
        &self,
        over: &Crossed,
        turn: Turn,
        flagged: &mut FlaggedClause,
    ) -> Result<(), OutOfMemory>
        requires crossed { IsCrossed over.now }
        requires past { length over.now.formula.now.clauses < self.now.first }
        requires goes { IsSome (after_turns (premises_of over.now self.now.steps) flagged.old (turn ∷ [])) }
        ensures { OnOk result
            (IsSameClause (Some flagged.new)
            (after_turns (premises_of over.now self.now.steps) flagged.old (turn ∷ []))) }
    {
        if turn.with <= u64::from(over.formula.len()) {
            flagged.resolve_crossed(
                turn.lit,
                over.formula.clause(turn.with as u32),
                over.blocked,
            )
        } else {
            flagged.resolve(turn.lit, self.clause(turn.with))
        }
    }
}
