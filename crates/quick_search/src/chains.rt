//! The chains of learned clauses.
use lk_model::{List, Lit, OutOfMemory, Round, Step, Turn};
use std::alloc::Global;

/// Chains, whose turns stand one chain after another. Those of forgotten clauses stay, since later ones may name them.
#[derive(Drop)]
pub(crate) struct Chains {
    /// How many clauses the formula has: the clause of a chain has the number that is its place, from 1 on, more.
    positions: u32,
    firsts: Vec<u32>,
    begins: Vec<usize>,
    literals: Vec<Lit>,
    numbers: Vec<u32>,
}

impl Chains {
    /// No chain over this many clauses.
    pub fn new(alloc: Global, positions: u32) -> Chains {
        Chains {
            positions,
            firsts: Vec::new(alloc),
            begins: Vec::new(alloc),
            literals: Vec::new(alloc),
            numbers: Vec::new(alloc),
        }
    }

    /// The number of the clause of the last chain.
    pub fn last(&self) -> u32 {
        let chains = u32::try_from(self.firsts.len()).unwrap_or(u32::MAX);
        self.positions.saturating_add(chains)
    }

    /// Begins a chain with the clause of a number.
    pub fn begin(&mut self, first: u32) -> Result<(), OutOfMemory> {
        self.firsts.push(first)?;
        self.begins.push(self.literals.len())?;
        Ok(())
    }

    /// Resolves the last chain on a literal of its clause with the clause of a number.
    pub fn turn(&mut self, lit: Lit, with: u32) -> Result<(), OutOfMemory> {
        self.literals.push(lit)?;
        self.numbers.push(with)?;
        Ok(())
    }

    /// Where the turns of the chain at a place begin.
    fn begin_of(&self, place: usize) -> usize {
        self.begins
            .get(place)
            .copied()
            .unwrap_or(self.literals.len())
    }

    /// The steps that the last one needs, numbered one after another.
    pub fn needed(&self, alloc: Global) -> Result<Round, OutOfMemory> {
        let needed = self.reached(alloc)?;
        let numbers = self.numbered(alloc, needed.as_slice())?;
        let mut steps = List::new(alloc);
        for place in 0..self.firsts.len() {
            if needed.get(place) == Some(&true) {
                steps.push(self.step(alloc, place, numbers.as_slice())?)?;
            }
        }
        Ok(Round { steps })
    }

    /// For each chain whether the last one needs it.
    fn reached(&self, alloc: Global) -> Result<Vec<bool>, OutOfMemory> {
        let mut reached = vec![in alloc; false; self.firsts.len()]?;
        if let Some(last) = reached.last_mut() {
            *last = true;
        }
        for place in (0..self.firsts.len()).rev() {
            if reached.get(place) == Some(&true) {
                self.reach(place, &mut reached);
            }
        }
        Ok(reached)
    }

    /// Notes what the chain at a place names.
    fn reach(&self, place: usize, reached: &mut Vec<bool>) {
        let first = self.firsts.get(place).copied().unwrap_or(0);
        self.note(first, reached);
        for at in self.begin_of(place)..self.begin_of(place.saturating_add(1)) {
            self.note(self.numbers.get(at).copied().unwrap_or(0), reached);
        }
    }

    /// Notes the chain of a number.
    fn note(&self, number: u32, reached: &mut Vec<bool>) {
        if let Some(place) = self.place_of(number) {
            if let Some(is_reached) = reached.get_mut(place) {
                *is_reached = true;
            }
        }
    }

    /// The place of the chain of a number, from 0 on. None for a clause of the formula.
    fn place_of(&self, number: u32) -> Option<usize> {
        (number as usize)
            .checked_sub(1)?
            .checked_sub(self.positions as usize)
    }

    /// For each chain its new number, if it is needed.
    fn numbered(&self, alloc: Global, needed: &[bool]) -> Result<Vec<u64>, OutOfMemory> {
        let mut numbers = Vec::new(alloc);
        let mut last = u64::from(self.positions);
        for is_needed in needed {
            if *is_needed {
                last = last.saturating_add(1);
            }
            numbers.push(last)?;
        }
        Ok(numbers)
    }

    /// The step of the chain at a place. Its clause is left open.
    fn step(&self, alloc: Global, place: usize, numbers: &[u64]) -> Result<Step, OutOfMemory> {
        let mut turns = List::new(alloc);
        for at in self.begin_of(place)..self.begin_of(place.saturating_add(1)) {
            let lit = self.literals.get(at).copied().unwrap_or_default();
            let with = self.numbers.get(at).copied().unwrap_or(0);
            turns.push(Turn {
                lit,
                with: self.renumbered(with, numbers),
            })?;
        }
        let first = self.firsts.get(place).copied().unwrap_or(0);
        Ok(Step {
            number: numbers.get(place).copied().unwrap_or(0),
            clause: List::new(alloc),
            first: self.renumbered(first, numbers),
            turns,
        })
    }

    /// The new number of a clause.
    fn renumbered(&self, number: u32, numbers: &[u64]) -> u64 {
        match self.place_of(number) {
            Some(place) => numbers.get(place).copied().unwrap_or(0),
            None => u64::from(number),
        }
    }
}
