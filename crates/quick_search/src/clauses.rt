//! The clauses that a search holds, and who watches what.
use lk_model::{Lit, OutOfMemory};
use std::alloc::Global;
use std::mem;

/// A clause: where its literals stand, its number, and how it was learned.
#[derive(Clone, Copy)]
pub(crate) struct Clause {
    pub begin: usize,
    pub len: usize,
    /// A position of the formula, or the number of a step.
    pub number: u32,
    /// At how many levels its literals were false when it was learned. 0 for a clause of the formula.
    pub levels: u32,
}

/// A clause that watches a literal, by its index, and one of its other literals. While that one is true, the clause need
/// not be looked at.
#[derive(Clone, Copy)]
pub(crate) struct Watcher {
    pub clause: usize,
    pub blocker: Lit,
}

/// Clauses, whose literals stand one clause after another. The first two of a clause are watched.
#[derive(Drop)]
pub(crate) struct Clauses {
    clauses: Vec<Clause>,
    literals: Vec<Lit>,
    /// By the rank of a literal, the clauses that watch it.
    watchers: Vec<Vec<Watcher>>,
}

impl Clauses {
    /// No clause over the variables from 1 to n.
    pub fn new(alloc: Global, n: u32) -> Result<Clauses, OutOfMemory> {
        let mut watchers = Vec::new(alloc);
        for _ in 0..(n as usize).saturating_mul(2).saturating_add(2) {
            watchers.push(Vec::new(alloc))?;
        }
        Ok(Clauses {
            clauses: Vec::new(alloc),
            literals: Vec::new(alloc),
            watchers,
        })
    }

    /// How many clauses there are.
    pub fn len(&self) -> usize {
        self.clauses.len()
    }

    /// The clause at an index, from 0 on.
    pub fn at(&self, index: usize) -> Option<Clause> {
        self.clauses.get(index).copied()
    }

    /// The number of the clause at an index.
    pub fn number(&self, index: usize) -> u32 {
        match self.clauses.get(index) {
            Some(clause) => clause.number,
            None => 0,
        }
    }

    /// The literals of the clause at an index.
    pub fn literals(&self, index: usize) -> &[Lit] {
        match self.clauses.get(index) {
            Some(clause) => {
                let end = clause.begin.saturating_add(clause.len);
                self.literals.get(clause.begin..end).unwrap_or(&[])
            }
            None => &[],
        }
    }

    /// The literal at a place of all literals.
    pub fn literal(&self, place: usize) -> Lit {
        self.literals.get(place).copied().unwrap_or_default()
    }

    /// Lets the literals at two places change places.
    pub fn swap(&mut self, one: usize, other: usize) {
        let first = self.literal(one);
        let second = self.literal(other);
        if let Some(l) = self.literals.get_mut(one) {
            *l = second;
        }
        if let Some(l) = self.literals.get_mut(other) {
            *l = first;
        }
    }

    /// Appends a clause, and returns its index.
    pub fn push(
        &mut self,
        number: u32,
        levels: u32,
        literals: &[Lit],
    ) -> Result<usize, OutOfMemory> {
        let index = self.clauses.len();
        self.clauses.push(Clause {
            begin: self.literals.len(),
            len: literals.len(),
            number,
            levels,
        })?;
        self.literals.extend_from_slice(literals)?;
        if let [first, second, ..] = literals {
            self.watch(*first, index, *second)?;
            self.watch(*second, index, *first)?;
        }
        Ok(index)
    }

    /// Lets a clause watch a literal.
    pub fn watch(&mut self, l: Lit, clause: usize, blocker: Lit) -> Result<(), OutOfMemory> {
        if let Some(list) = self.watchers.get_mut(l.rank()) {
            list.push(Watcher { clause, blocker })?;
        }
        Ok(())
    }

    /// Takes the list of a literal out.
    pub fn take_watchers(&mut self, alloc: Global, l: Lit) -> Vec<Watcher> {
        match self.watchers.get_mut(l.rank()) {
            Some(list) => mem::replace(list, Vec::new(alloc)),
            None => Vec::new(alloc),
        }
    }

    /// Puts the list of a literal back.
    pub fn put_watchers(&mut self, l: Lit, watchers: Vec<Watcher>) {
        if let Some(list) = self.watchers.get_mut(l.rank()) {
            *list = watchers;
        }
    }
}
