//! New numbers for the positions, steps and variables of what is found in a formula.
ghost use Rattle.std.specs.Prelude.{◌≡◌, ◌+◌, ◌<◌, ◌^◌, ◌++◌, length, map, IfOk, OnOk, IsTrue};
ghost use Rattle.lk_model.specs.Lists.{rises_within};
ghost use Rattle.lk_model.specs.Limits.{max_vars};
ghost use Rattle.lk_model.specs.Documents.Documents.{steps_of};
ghost use Rattle.renaming_laws.specs.Renaming.{named, nth};
ghost use Rattle.result_renaming.specs.Renamed.{new_number, new_result, new_round, new_step, new_turn};

use lk_model::{GeneralResult, List, Lit, OutOfMemory, Round, Step, Turn};
use std::alloc::Global;
use std::mem;

/// The new numbers.
#[derive(Drop)]
pub struct Renaming<'a> {
    /// How many positions there are. The numbers past them are those of steps.
    pub positions: u64,
    /// The new number after which steps are numbered.
    pub last: u64,
    /// The new positions. In a chain, one past this list stays; as a kept position it becomes 0.
    pub part: &'a [u32],
    /// The new variables. One past this list stays.
    pub names: &'a [u32],
}

/// What stands at a place that counts from 1, and 0 past the last one. Place 0 is read as the first.
pub fn nth(numbers: &[u32], place: u64) -> u32
    ensures { result ≡ nth numbers.now place }
{
    match numbers.get(place.saturating_sub(1) as usize) {
        Some(number) => *number,
        None => 0,
    }
}

/// In the place of each number what stands there in the part, as `nth` tells.
pub fn positions_at(part: &[u32], places: List<u32>) -> List<u32>
    ensures { result ≡ map (nth part.now) places }
{
    let mut places = places.into_vec();
    for place in places.iter_mut() {
        *place = nth(part, u64::from(*place));
    }
    List::from_vec(places)
}

impl<'a> Renaming<'a> {
    // The new number of a position or step. It is to fit in 64 bits, as no machine holds so many steps.
    fn number(&self, k: u64) -> Result<u64, OutOfMemory>
        ensures { IfOk result (λ n. n ≡ new_number self.now k) }
    {
        if k <= self.positions {
            match self.part.get(k.saturating_sub(1) as usize) {
                Some(position) => Ok(u64::from(*position)),
                None => Ok(k),
            }
        } else {
            (k - self.positions)
                .checked_add(self.last)
                .ok_or(OutOfMemory)
        }
    }

    // The literal on the new variable.
    fn literal(&self, l: Lit) -> Lit
        requires { IsTrue (rises_within 0 max_vars self.now.names.now) }
        ensures { result ≡ named self.now.names.now l }
    {
        match self.names.get(l.var() as usize - 1) {
            Some(name) => Lit::from_var(*name, l.positive()),
            None => l,
        }
    }

    /// The literals, renamed.
    pub fn literals(&self, literals: List<Lit>) -> List<Lit>
        requires { IsTrue (rises_within 0 max_vars self.now.names.now) }
        ensures { result ≡ map (named self.now.names.now) literals }
    {
        let mut literals = literals.into_vec();
        for l in literals.iter_mut() {
            *l = self.literal(*l);
        }
        List::from_vec(literals)
    }

    /// The positions of clauses, renamed.
    pub fn positions(&self, kept: List<u32>) -> List<u32>
        ensures { result ≡ map (nth self.now.part.now) kept }
    {
        positions_at(self.part, kept)
    }

    // The turns, renamed.
    fn turns(&self, turns: List<Turn>) -> Result<List<Turn>, OutOfMemory>
        requires { IsTrue (rises_within 0 max_vars self.now.names.now) }
        ensures { IfOk result (λ ts. ts ≡ map (new_turn self.now) turns) }
    {
        let mut turns = turns.into_vec();
        for turn in turns.iter_mut() {
            turn.lit = self.literal(turn.lit);
            turn.with = self.number(turn.with)?;
        }
        Ok(List::from_vec(turns))
    }

    // Renames a step.
    fn step(&self, alloc: Global, step: &mut Step) -> Result<(), OutOfMemory>
        requires { IsTrue (rises_within 0 max_vars self.now.names.now) }
        ensures { OnOk result (step.new ≡ new_step self.now step.old) }
    {
        step.number = self.number(step.number)?;
        step.first = self.number(step.first)?;
        let clause = mem::replace(&mut step.clause, List::new(alloc));
        step.clause = self.literals(clause);
        let turns = mem::replace(&mut step.turns, List::new(alloc));
        step.turns = self.turns(turns)?;
        Ok(())
    }

    // The round, renamed.
    fn round(&self, alloc: Global, round: Round) -> Result<Round, OutOfMemory>
        requires { IsTrue (rises_within 0 max_vars self.now.names.now) }
        ensures { IfOk result (λ r. r ≡ new_round self.now round) }
    {
        let mut steps = round.steps.into_vec();
        for step in steps.iter_mut() {
            self.step(alloc, step)?;
        }
        Ok(Round {
            steps: List::from_vec(steps),
        })
    }

    /// The round, renamed, where it is the only one. Its steps are to have numbers of 64 bits.
    pub fn only(&self, alloc: Global, round: Round) -> Result<Round, OutOfMemory>
        requires { IsTrue (rises_within 0 max_vars self.now.names.now) }
        ensures round { IfOk result (λ r. r ≡ new_round self.now round) }
        ensures numbers { IfOk result (λ r. self.now.last + length round.steps < 2 ^ 64) }
    {
        let count = round.steps.len() as u64;
        let _last = self.last.checked_add(count).ok_or(OutOfMemory)?;
        self.round(alloc, round)
    }

    /// Appends more rounds, renamed. What is returned is `last` and one more for each of their steps. It is to fit in 64
    /// bits.
    pub fn append(
        &self,
        alloc: Global,
        rounds: &mut List<Round>,
        more: List<Round>,
    ) -> Result<u64, OutOfMemory>
        requires { IsTrue (rises_within 0 max_vars self.now.names.now) }
        ensures rounds { OnOk result (rounds.new ≡ rounds.old ++ map (new_round self.now) more) }
        ensures last { IfOk result (λ n. n ≡ self.now.last + length (steps_of more)) }
    {
        let mut last = self.last;
        for round in more.into_vec() {
            last = last
                .checked_add(round.steps.len() as u64)
                .ok_or(OutOfMemory)?;
            rounds.push(self.round(alloc, round)?)?;
        }
        Ok(last)
    }

    /// The rounds, renamed. Their steps are to have numbers of 64 bits.
    pub fn rounds(&self, alloc: Global, rounds: List<Round>) -> Result<List<Round>, OutOfMemory>
        requires { IsTrue (rises_within 0 max_vars self.now.names.now) }
        ensures rounds { IfOk result (λ rs. rs ≡ map (new_round self.now) rounds) }
        ensures numbers { IfOk result (λ rs. self.now.last + length (steps_of rounds) < 2 ^ 64) }
    {
        let mut renamed = List::new(alloc);
        let _last = self.append(alloc, &mut renamed, rounds)?;
        Ok(renamed)
    }

    /// The result, renamed. Its steps are to have numbers of 64 bits.
    pub fn result(&self, alloc: Global, r: GeneralResult) -> Result<GeneralResult, OutOfMemory>
        requires { IsTrue (rises_within 0 max_vars self.now.names.now) }
        ensures result { IfOk result (λ t. t ≡ new_result self.now r) }
        ensures numbers { IfOk result (λ t. self.now.last + length (steps_of r.rounds) < 2 ^ 64) }
    {
        Ok(GeneralResult {
            kept: self.positions(r.kept),
            set: self.literals(r.set),
            rounds: self.rounds(alloc, r.rounds)?,
        })
    }
}
