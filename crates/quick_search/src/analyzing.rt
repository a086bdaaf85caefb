//! The clause that a conflict leads to, and its chain.
//!
//! The false clause is resolved with the reasons of its literals, from the last one of the trail back, until one literal
//! of the present level is left. Literals that follow from others of the clause are resolved away after that, with what
//! they follow by (Sörensson and Biere, "Minimizing Learned Clauses", 2009), and in the end those of level 0.
use crate::search::Search;
use lk_model::{Lit, OutOfMemory};
use std::cmp::Reverse;
use std::mem;

// To find that a literal follows from others, this many looks at literals are made at most.
const LOOKS: usize = 4096;

/// A variable whose reason is gone through, and from which of its literals on.
#[derive(Clone, Copy)]
pub(crate) struct Frame {
    var: u32,
    next: usize,
}

impl Search {
    /// Makes the clause that is learned from a false one above level 0. Its first literal is that of the present level.
    pub fn analyze(&mut self, conflict: usize) -> Result<(), OutOfMemory> {
        self.in_clause.clear();
        self.clause.clear();
        self.clause.push(Lit::default())?;
        self.begin_chain(conflict)?;
        self.walk_back(conflict)?;
        self.shorten()?;
        self.resolve_units()
    }

    /// Begins a chain with the clause at an index.
    pub fn begin_chain(&mut self, index: usize) -> Result<(), OutOfMemory> {
        self.is_unit.clear();
        self.unit_literals.clear();
        self.chains.begin(self.clauses.number(index))
    }

    /// Resolves along the trail, until one literal of the present level is left.
    fn walk_back(&mut self, conflict: usize) -> Result<(), OutOfMemory> {
        let mut open = self.meet(conflict, None)?;
        for place in (0..self.trail.len()).rev() {
            if let Some(l) = self.trail.at(place) {
                if self.in_clause.has(l.var()) {
                    if open <= 1 {
                        self.lead(l.negated());
                        return Ok(());
                    }
                    open = open.saturating_sub(1);
                    open = open.saturating_add(self.resolve_away(l)?);
                }
            }
        }
        Ok(())
    }

    /// Makes a literal the first one of the clause.
    fn lead(&mut self, l: Lit) {
        if let Some(first) = self.clause.first_mut() {
            *first = l;
        }
    }

    /// Resolves with the reason of a true literal: how many literals of the present level are new.
    fn resolve_away(&mut self, l: Lit) -> Result<usize, OutOfMemory> {
        match self.trail.reason_of(l.var()) {
            Some(reason) => {
                self.chains.turn(l.negated(), self.clauses.number(reason))?;
                self.in_clause.unmark(l.var());
                self.meet(reason, Some(l))
            }
            None => Ok(0),
        }
    }

    /// Takes the literals of the clause at an index in, but for one: how many of the present level are new.
    fn meet(&mut self, index: usize, but: Option<Lit>) -> Result<usize, OutOfMemory> {
        let mut count = 0usize;
        for i in 0..self.clauses.literals(index).len() {
            let l = self.clauses.literals(index).get(i).copied();
            if l != but && self.take_in(l)? {
                count = count.saturating_add(1);
            }
        }
        Ok(count)
    }

    /// Takes a false literal in: whether it is a new one of the present level.
    fn take_in(&mut self, l: Option<Lit>) -> Result<bool, OutOfMemory> {
        let Some(l) = l else {
            return Ok(false);
        };
        let level = self.trail.level_of(l.var());
        if level == 0 {
            self.take_unit(l)?;
            return Ok(false);
        }
        if !self.in_clause.mark(l.var()) {
            return Ok(false);
        }
        self.order.raise(l.var());
        if level == self.trail.level() {
            return Ok(true);
        }
        self.clause.push(l)?;
        Ok(false)
    }

    /// Takes a literal in that is false at level 0.
    pub fn take_unit(&mut self, l: Lit) -> Result<(), OutOfMemory> {
        if self.is_unit.mark(l.var()) {
            self.unit_literals.push(l)?;
        }
        Ok(())
    }

    /// Resolves the literals away that are false at level 0.
    pub fn resolve_units(&mut self) -> Result<(), OutOfMemory> {
        for l in self.unit_literals.as_slice() {
            let number = self.units.get(l.var() as usize).copied().unwrap_or(0);
            self.chains.turn(*l, number)?;
        }
        Ok(())
    }

    /// Takes out what follows from the other literals.
    fn shorten(&mut self) -> Result<(), OutOfMemory> {
        self.follows.clear();
        self.stays.clear();
        self.passed.clear();
        self.mark_levels();
        self.is_resolved.clear();
        let mut kept = 1usize;
        for i in 1..self.clause.len() {
            if let Some(l) = self.clause.get(i).copied() {
                if self.follows_by_others(l.var())? {
                    self.is_resolved.mark(l.var());
                } else {
                    if let Some(slot) = self.clause.get_mut(kept) {
                        *slot = l;
                    }
                    kept = kept.saturating_add(1);
                }
            }
        }
        self.clause.truncate(kept);
        self.resolve_passed()
    }

    /// Marks the levels of the clause's literals.
    fn mark_levels(&mut self) {
        self.levels.clear();
        for l in self.clause.as_slice() {
            self.levels.mark(self.trail.level_of(l.var()));
        }
    }

    /// Whether the value of a variable follows from the other literals of the clause. What it follows by is noted.
    fn follows_by_others(&mut self, v: u32) -> Result<bool, OutOfMemory> {
        self.frames.clear();
        if self.trail.reason_of(v).is_none() {
            return Ok(false);
        }
        self.frames.push(Frame { var: v, next: 0 })?;
        for _ in 0..LOOKS {
            match self.frames.pop() {
                Some(frame) => {
                    if !self.go_on(frame)? {
                        self.note_stays();
                        return Ok(false);
                    }
                }
                None => return Ok(true),
            }
        }
        Ok(false)
    }

    /// Looks at the next literal of a reason. False if it does not follow.
    fn go_on(&mut self, frame: Frame) -> Result<bool, OutOfMemory> {
        let Some(reason) = self.trail.reason_of(frame.var) else {
            return Ok(false);
        };
        let Some(l) = self.clauses.literals(reason).get(frame.next).copied() else {
            if self.follows.mark(frame.var) {
                self.passed.push(frame.var)?;
            }
            return Ok(true);
        };
        self.frames.push(Frame {
            var: frame.var,
            next: frame.next.saturating_add(1),
        })?;
        if l.var() == frame.var || self.is_known(l) {
            return Ok(true);
        }
        if !self.may_follow(l) {
            return Ok(false);
        }
        self.frames.push(Frame {
            var: l.var(),
            next: 0,
        })?;
        Ok(true)
    }

    /// Whether a literal is false at level 0, is in the clause or is known to follow.
    fn is_known(&self, l: Lit) -> bool {
        self.trail.level_of(l.var()) == 0
            || self.in_clause.has(l.var())
            || self.follows.has(l.var())
    }

    /// Whether a literal has a reason, stands at a level of the clause, and is not known to stay.
    fn may_follow(&self, l: Lit) -> bool {
        self.trail.reason_of(l.var()).is_some()
            && self.levels.has(self.trail.level_of(l.var()))
            && !self.stays.has(l.var())
    }

    /// Notes that what is gone through does not follow.
    fn note_stays(&mut self) {
        for frame in self.frames.as_slice() {
            self.stays.mark(frame.var);
        }
    }

    /// Resolves with the reasons of the literals that were taken out, and of what came in by these, the last one of the
    /// trail first.
    fn resolve_passed(&mut self) -> Result<(), OutOfMemory> {
        let alloc = self.alloc;
        let mut passed = mem::replace(&mut self.passed, Vec::new(alloc));
        let trail = &self.trail;
        passed.sort_unstable_by_key(|v| Reverse(trail.place_of(*v)));
        for v in passed.as_slice() {
            if self.is_resolved.has(*v) {
                self.resolve_variable(*v)?;
            }
        }
        self.passed = passed;
        Ok(())
    }

    /// Resolves with the reason of a variable.
    fn resolve_variable(&mut self, v: u32) -> Result<(), OutOfMemory> {
        let place = self.trail.place_of(v);
        if let (Some(l), Some(reason)) = (self.trail.at(place), self.trail.reason_of(v)) {
            self.chains.turn(l.negated(), self.clauses.number(reason))?;
            for i in 0..self.clauses.literals(reason).len() {
                if let Some(other) = self.clauses.literals(reason).get(i).copied() {
                    self.bring_in(other)?;
                }
            }
        }
        Ok(())
    }

    /// Notes a literal that comes in by a reason, unless it stays in the clause.
    fn bring_in(&mut self, l: Lit) -> Result<(), OutOfMemory> {
        if self.trail.is_true(l) {
            return Ok(());
        }
        if self.trail.level_of(l.var()) == 0 {
            return self.take_unit(l);
        }
        if !self.in_clause.has(l.var()) {
            self.is_resolved.mark(l.var());
        }
        Ok(())
    }
}
