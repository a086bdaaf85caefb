//! The chains that a refutation needs.
//!
//! A step that only one chain names, as its first clause, is no clause of its own: its turns come before the others of
//! that chain. So most clauses that an elimination derives are never told.
use crate::chains::{Chains, Resolution};
use lk_model::{List, OutOfMemory, Round, Turn};
use refutation_log::Chain;
use std::alloc::Global;

/// How often a clause is named by needed chains, and how often as the first one.
#[derive(Clone, Copy)]
struct Uses {
    all: u32,
    first: u32,
}

/// What is known of the chains of a refutation: how the clauses that they derive are used, and their new numbers. The
/// formula's clauses keep their positions.
#[derive(Drop)]
struct Needed<'a> {
    positions: usize,
    chains: &'a Chains,
    uses: Vec<Uses>,
    numbers: Vec<u64>,
}

/// The needed chains of a refutation that ends with the last one. The derived clauses are numbered after the formula's,
/// of which there are `positions`.
pub(crate) fn needed_chains(
    alloc: Global,
    positions: usize,
    chains: &Chains,
) -> Result<Vec<Chain>, OutOfMemory> {
    let mut needed = Needed {
        positions,
        chains,
        uses: count_uses(alloc, positions, chains)?,
        numbers: Vec::new(alloc),
    };
    needed.number_all()?;
    let mut told = Vec::new(alloc);
    for place in 0..chains.len() {
        if needed.is_told(place) {
            told.push(needed.chain(alloc, place)?)?;
        }
    }
    Ok(told)
}

/// How each derived clause is used, found backwards from the last one.
fn count_uses(alloc: Global, positions: usize, chains: &Chains) -> Result<Vec<Uses>, OutOfMemory> {
    let mut uses = vec![in alloc; Uses { all: 0, first: 0 }; chains.len()]?;
    if let Some(last) = uses.last_mut() {
        last.all = 1;
    }
    for place in (0..chains.len()).rev() {
        if is_used(&uses, place) {
            use_first(&mut uses, positions, chains.first(place));
            use_all(&mut uses, positions, chains.resolutions(place));
        }
    }
    Ok(uses)
}

/// Whether a needed chain names the clause.
fn is_used(uses: &[Uses], place: usize) -> bool {
    match uses.get(place) {
        Some(of) => of.all > 0,
        None => false,
    }
}

/// A needed chain begins with the clause of a number.
fn use_first(uses: &mut Vec<Uses>, positions: usize, number: u32) {
    if let Some(of) = place_of(positions, number).and_then(|place| uses.get_mut(place)) {
        of.all = of.all.saturating_add(1);
        of.first = of.first.saturating_add(1);
    }
}

/// A needed chain resolves with clauses.
fn use_all(uses: &mut Vec<Uses>, positions: usize, resolutions: &[Resolution]) {
    for resolution in resolutions {
        if let Some(of) = place_of(positions, resolution.with).and_then(|place| uses.get_mut(
            place,
        )) {
            of.all = of.all.saturating_add(1);
        }
    }
}

/// The place of the chain of a derived clause, from 0 on.
fn place_of(positions: usize, number: u32) -> Option<usize> {
    (number as usize).checked_sub(1)?.checked_sub(positions)
}

impl<'a> Needed<'a> {
    /// Numbers the clauses that are told.
    fn number_all(&mut self) -> Result<(), OutOfMemory> {
        let mut last = self.positions as u64;
        for place in 0..self.chains.len() {
            if self.is_told(place) {
                last = last.saturating_add(1);
            }
            self.numbers.push(last)?;
        }
        Ok(())
    }

    /// Whether the clause is told: it is needed, and not only the beginning of one other chain.
    fn is_told(&self, place: usize) -> bool {
        is_used(&self.uses, place) && !self.is_joined(place)
    }

    /// Whether the clause is only the beginning of one other chain.
    fn is_joined(&self, place: usize) -> bool {
        match self.uses.get(place) {
            Some(of) => of.all == 1 && of.first == 1,
            None => false,
        }
    }

    /// The chain of a clause, behind those that begin it.
    fn chain(&self, alloc: Global, place: usize) -> Result<Chain, OutOfMemory> {
        let places = self.beginnings(alloc, place)?;
        let mut turns = List::new(alloc);
        for place in places.iter().rev() {
            self.tell(*place, &mut turns)?;
        }
        let first = match places.last() {
            Some(deepest) => self.number(self.chains.first(*deepest)),
            None => 0,
        };
        Ok(Chain { first, turns })
    }

    /// The place of a chain, then that of the chain that begins it, and so on.
    fn beginnings(&self, alloc: Global, place: usize) -> Result<Vec<usize>, OutOfMemory> {
        let mut places = Vec::new(alloc);
        let mut at = place;
        for _ in 0..self.chains.len() {
            places.push(at)?;
            match place_of(self.positions, self.chains.first(at)) {
                Some(before) if self.is_joined(before) => at = before,
                _ => break,
            }
        }
        Ok(places)
    }

    /// Appends the turns of a chain.
    fn tell(&self, place: usize, turns: &mut List<Turn>) -> Result<(), OutOfMemory> {
        for resolution in self.chains.resolutions(place) {
            turns.push(Turn {
                lit: resolution.on,
                with: self.number(resolution.with),
            })?;
        }
        Ok(())
    }

    /// The new number of a clause.
    fn number(&self, number: u32) -> u64 {
        match place_of(self.positions, number) {
            Some(place) => self.numbers.get(place).copied().unwrap_or(0),
            None => u64::from(number),
        }
    }
}

/// Appends the chains of a round whose steps are numbered after those that are there. A number past 32 bits becomes 0,
/// which no clause has.
pub(crate) fn append(alloc: Global, chains: &mut Chains, round: &Round) -> Result<(), OutOfMemory> {
    let mut resolutions = Vec::new(alloc);
    for step in round.steps.as_slice() {
        resolutions.clear();
        add_all(&mut resolutions, step.turns.as_slice())?;
        chains.push(short(step.first), resolutions.as_slice())?;
    }
    Ok(())
}

/// Adds turns.
fn add_all(resolutions: &mut Vec<Resolution>, turns: &[Turn]) -> Result<(), OutOfMemory> {
    for turn in turns {
        resolutions.push(Resolution {
            on: turn.lit,
            with: short(turn.with),
        })?;
    }
    Ok(())
}

/// A number in 32 bits, or 0.
fn short(number: u64) -> u32 {
    u32::try_from(number).unwrap_or(0)
}
