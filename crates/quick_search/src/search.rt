//! A search.
use crate::analyzing::Frame;
use crate::chains::Chains;
use crate::clauses::Clauses;
use crate::luby::Luby;
use crate::marks::Marks;
use crate::order::Order;
use crate::trail::Trail;
use lk_model::{Budget, Decided, Formula, Lit, OutOfMemory, Round};
use partial_assign::Partial;
use std::alloc::Global;

// A run learns this many clauses, or a multiple of them.
const SHORTEST_RUN: u64 = 64;

// Clauses are first forgotten when this many are held, and each time after this many more.
const FIRST_HELD: usize = 2000;

const MORE_HELD: usize = 500;

/// A search, and what it uses again from conflict to conflict.
#[derive(Drop)]
pub(crate) struct Search {
    pub alloc: Global,
    pub vars: u32,
    pub clauses: Clauses,
    pub trail: Trail,
    pub order: Order,
    pub chains: Chains,
    /// By variable, the number of the unit clause of its literal that is true at level 0.
    pub units: Vec<u32>,
    /// How many literals of level 0 have one.
    pub derived: usize,
    /// How many clauses were learned.
    pub learned: u64,
    /// How many learned clauses are held, and with how many some are forgotten.
    pub held: usize,
    pub most_held: usize,
    /// The clause that is being learned, and its variables.
    pub clause: Vec<Lit>,
    pub in_clause: Marks,
    /// The literals of its chain that are false at level 0.
    pub unit_literals: Vec<Lit>,
    pub is_unit: Marks,
    /// The levels of its literals.
    pub levels: Marks,
    /// Variables that follow from the clause, in a list and by marks, and those that do not.
    pub passed: Vec<u32>,
    pub follows: Marks,
    pub stays: Marks,
    /// Variables that are resolved on to shorten it.
    pub is_resolved: Marks,
    pub frames: Vec<Frame>,
}

/// How a search ends.
#[derive(Clone, Copy)]
enum End {
    Model,
    Empty,
    Full,
}

/// A model of the clauses, a refutation, or neither, if `conflicts` clauses are learned. The steps of a refutation are
/// numbered after the clauses, and state their chains alone. The error is that there is no memory.
pub fn decide(
    alloc: Global,
    f: &Formula,
    conflicts: Budget,
) -> Result<Decided<Partial, Round, ()>, OutOfMemory> {
    let mut search = Search::of(alloc, f)?;
    match search.run(conflicts.get())? {
        End::Model => Ok(Decided::Model(search.values(f)?)),
        End::Empty => Ok(Decided::Refuted(search.chains.needed(alloc)?)),
        End::Full => Ok(Decided::Stopped(())),
    }
}

impl Search {
    /// The search of a formula's clauses, where nothing is decided.
    fn of(alloc: Global, f: &Formula) -> Result<Search, OutOfMemory> {
        let n = f.vars();
        let mut search = Search {
            alloc,
            vars: n,
            clauses: Clauses::new(alloc, n)?,
            trail: Trail::new(alloc, n)?,
            order: Order::new(alloc, f)?,
            chains: Chains::new(alloc, f.len()),
            units: vec![in alloc; 0u32; (n as usize).saturating_add(1)]?,
            derived: 0,
            learned: 0,
            held: 0,
            most_held: FIRST_HELD,
            clause: Vec::new(alloc),
            in_clause: Marks::new(alloc, n)?,
            unit_literals: Vec::new(alloc),
            is_unit: Marks::new(alloc, n)?,
            levels: Marks::new(alloc, n)?,
            passed: Vec::new(alloc),
            follows: Marks::new(alloc, n)?,
            stays: Marks::new(alloc, n)?,
            is_resolved: Marks::new(alloc, n)?,
            frames: Vec::new(alloc),
        };
        for k in 0..f.len() {
            search.clauses.push(k + 1, 0, f.clause(k + 1))?;
        }
        Ok(search)
    }

    /// Searches, until it ends.
    fn run(&mut self, conflicts: u64) -> Result<End, OutOfMemory> {
        let mut luby = Luby::new();
        if let Some(conflict) = self.put_units()? {
            self.refute(conflict)?;
            return Ok(End::Empty);
        }
        for _ in 0..conflicts {
            let length = luby.next().saturating_mul(SHORTEST_RUN);
            let until = self.learned.saturating_add(length).min(conflicts);
            if let Some(end) = self.run_until(until)? {
                return Ok(end);
            }
            if self.learned >= conflicts {
                break;
            }
            self.back(0)?;
            if self.held > self.most_held {
                self.derive_units()?;
                self.forget()?;
                self.most_held = self.most_held.saturating_add(MORE_HELD);
            }
        }
        Ok(End::Full)
    }

    /// Makes the literals of unit clauses true: a clause of one literal that is false by others, or without a literal.
    fn put_units(&mut self) -> Result<Option<usize>, OutOfMemory> {
        for index in 0..self.clauses.len() {
            match self.clauses.literals(index) {
                [] => return Ok(Some(index)),
                [l] => {
                    let l = *l;
                    if self.trail.is_false(l) {
                        return Ok(Some(index));
                    }
                    if !self.trail.is_true(l) {
                        self.trail.put(l, Some(index))?;
                    }
                }
                _ => {}
            }
        }
        Ok(None)
    }

    /// Searches until this many clauses are learned in all, and a run is over.
    fn run_until(&mut self, until: u64) -> Result<Option<End>, OutOfMemory> {
        for _ in 0..u64::MAX {
            match self.propagate()? {
                Some(conflict) => {
                    if self.trail.level() == 0 {
                        self.refute(conflict)?;
                        return Ok(Some(End::Empty));
                    }
                    if self.learned >= until {
                        return Ok(None);
                    }
                    self.learn(conflict)?;
                    self.held = self.held.saturating_add(1);
                }
                None => {
                    if !self.decide()? {
                        return Ok(Some(End::Model));
                    }
                }
            }
        }
        Ok(None)
    }

    /// Decides the next variable. False if all are set.
    fn decide(&mut self) -> Result<bool, OutOfMemory> {
        if self.trail.level() == 0 {
            self.derive_units()?;
        }
        match self.order.next(&self.trail) {
            Some(l) => {
                self.trail.open()?;
                self.trail.put(l, None)?;
                Ok(true)
            }
            None => Ok(false),
        }
    }

    /// The values of the variables.
    fn values(&self, f: &Formula) -> Result<Partial, OutOfMemory> {
        let mut values = Partial::new(self.alloc, f.vars())?;
        for l in self.trail.literals() {
            if l.var() <= values.vars() {
                values.make_true(*l);
            }
        }
        Ok(values)
    }
}
