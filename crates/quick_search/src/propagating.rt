//! Unit propagation.
use crate::clauses::Watcher;
use crate::search::Search;
use lk_model::{Lit, OutOfMemory};

/// What a clause asks for of which one watched literal is false.
#[derive(Clone, Copy)]
enum Demand {
    /// Nothing: a literal is true, which blocks it from now on.
    Nothing(Lit),
    /// Nothing: it watches another literal.
    Moved,
    /// That this literal becomes true.
    Truth(Lit),
    /// All its literals are false.
    Conflict,
}

impl Search {
    /// Makes true what clauses force, and returns the index of a clause that is false, if there is one.
    pub fn propagate(&mut self) -> Result<Option<usize>, OutOfMemory> {
        for _ in 0..(self.vars as usize).saturating_add(1) {
            match self.trail.at(self.trail.head) {
                Some(l) => {
                    self.trail.head = self.trail.head.saturating_add(1);
                    if let Some(conflict) = self.visit(l.negated())? {
                        return Ok(Some(conflict));
                    }
                }
                None => return Ok(None),
            }
        }
        Ok(None)
    }

    /// Goes through the clauses that watch a literal which became false, up to one that is false.
    fn visit(&mut self, l: Lit) -> Result<Option<usize>, OutOfMemory> {
        let mut watchers = self.clauses.take_watchers(self.alloc, l);
        let mut kept = 0usize;
        let mut conflict = None;
        for i in 0..watchers.len() {
            if let Some(watcher) = watchers.get(i).copied() {
                let mut demand = Demand::Nothing(watcher.blocker);
                if conflict.is_none() {
                    demand = self.look(l, watcher)?;
                }
                if matches!(demand, Demand::Conflict) {
                    conflict = Some(watcher.clause);
                }
                if let Some(slot) = watchers.get_mut(kept) {
                    *slot = watcher_after(watcher, demand);
                }
                if !matches!(demand, Demand::Moved) {
                    kept = kept.saturating_add(1);
                }
            }
        }
        watchers.truncate(kept);
        self.clauses.put_watchers(l, watchers);
        Ok(conflict)
    }

    /// What a clause asks for, which is done.
    fn look(&mut self, l: Lit, watcher: Watcher) -> Result<Demand, OutOfMemory> {
        if self.trail.is_true(watcher.blocker) {
            return Ok(Demand::Nothing(watcher.blocker));
        }
        let demand = self.demand(l, watcher.clause)?;
        if let Demand::Truth(other) = demand {
            self.trail.put(other, Some(watcher.clause))?;
        }
        Ok(demand)
    }

    /// What the clause at an index asks for, of which a watched literal is false. If it watches another one instead, it is
    /// put into its list.
    fn demand(&mut self, l: Lit, index: usize) -> Result<Demand, OutOfMemory> {
        let Some(clause) = self.clauses.at(index) else {
            return Ok(Demand::Moved);
        };
        let second = clause.begin.saturating_add(1);
        if self.clauses.literal(clause.begin) == l {
            self.clauses.swap(clause.begin, second);
        }
        let first = self.clauses.literal(clause.begin);
        if self.trail.is_true(first) {
            return Ok(Demand::Nothing(first));
        }
        match self.open_place(index) {
            Some(at) => {
                self.clauses.swap(second, clause.begin.saturating_add(at));
                let other = self.clauses.literal(second);
                self.clauses.watch(other, index, first)?;
                Ok(Demand::Moved)
            }
            None if self.trail.is_false(first) => Ok(Demand::Conflict),
            None => Ok(Demand::Truth(first)),
        }
    }

    /// The place in a clause of a literal that is not false and not watched.
    fn open_place(&self, index: usize) -> Option<usize> {
        let place = self
            .clauses
            .literals(index)
            .iter()
            .skip(2)
            .position(|l| !self.trail.is_false(*l))?;
        Some(place.saturating_add(2))
    }
}

/// How a clause watches a literal after it was looked at.
fn watcher_after(watcher: Watcher, demand: Demand) -> Watcher {
    match demand {
        Demand::Nothing(blocker) | Demand::Truth(blocker) => Watcher {
            clause: watcher.clause,
            blocker,
        },
        Demand::Moved | Demand::Conflict => watcher,
    }
}
