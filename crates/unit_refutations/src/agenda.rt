//! Which clauses wait to be looked at.
//!
//! A clause asks for nothing while it has a true literal or two that are unset. So each clause of a part has two
//! counts, and waits only where these let it ask for something: then it is gone through a few times at most, however
//! long it is. (Dowling and Gallier, "Linear-time Algorithms for Testing the Satisfiability of Propositional Horn
//! Formulae", 1984.) The counts are a matter of speed: no contract rests on them.
ghost use Rattle.std.specs.Prelude.{◌≡◌, ◌+◌, ◌-◌, ◌<◌, ◌≤◌, ℕ, false, length, true};
ghost use Rattle.std.specs.Prelude.{IfOk, IfSome, OnOk, IsTrue};
ghost use Rattle.lk_model.specs.Lists.{among, rises_within};
ghost use Rattle.lk_model.specs.Formulas.Lean.{are_positions};
ghost use Rattle.lk_model.specs.Held.VariableSets.{is_in, with_variable};

use lk_model::{Formula, OutOfMemory};
use std::alloc::Global;
use std::collections::VecDeque;
use std::marker::Model;

/// What becomes of a literal of a clause.
#[derive(Clone, Copy)]
pub(crate) enum Change {
    /// It was unset, and is true.
    Satisfied,
    /// It was unset, and is false, or its variable is blocked.
    Closed,
    /// It was true, and its variable is blocked.
    Released,
}

/// How many literals of a clause are unset on variables that are not blocked, and how many are true.
#[derive(Clone, Copy)]
struct Count {
    unset: u32,
    holding: u32,
}

impl Count {
    // With a change of a literal.
    fn note(&mut self, change: Change) {
        match change {
            Change::Satisfied => {
                self.unset = self.unset.saturating_sub(1);
                self.holding = self.holding.saturating_add(1);
            }
            Change::Closed => self.unset = self.unset.saturating_sub(1),
            Change::Released => self.holding = self.holding.saturating_sub(1),
        }
    }

    // Whether the clause may ask for something.
    fn asks(&self) -> bool {
        self.holding == 0 && self.unset <= 1
    }
}

/// The clauses of a part, each with its counts, and those that wait, first in, first out. Contracts see which positions
/// are inside the part, and which wait.
#[derive(Drop)]
pub(crate) struct Agenda {
    inside: Vec<bool>,
    counts: Vec<Count>,
    waiting: VecDeque<u32>,
}

impl Model for Agenda {
    ghost use Rattle.unit_refutations.specs.Agendas.{Planned, IsPlan};

    ghost Value = { Planned };

    ghost view = { λ a. record { inside = a.inside.items; waiting = a.waiting.items } };

    ghost invariant = { λ a. IsPlan a };
}

impl Agenda {
    /// The clauses at the positions of a part, of which those wait that have one literal or none.
    pub fn new(alloc: Global, f: &Formula, part: &[u32]) -> Result<Agenda, OutOfMemory>
        requires { IsTrue (are_positions f.now part.now) }
        ensures size { IfOk result (λ a. length a.inside ≡ length f.now.clauses) }
        ensures inside { IfOk result (λ a. (position : ℕ) → is_in a.inside position ≡ among part.now position) }
    {
        let clauses = f.len() as usize;
        let none = Count {
            unset: 0,
            holding: 0,
        };
        let mut agenda = Agenda {
            inside: vec![in alloc; false; clauses]?,
            counts: vec![in alloc; none; clauses]?,
            waiting: VecDeque::new(alloc),
        };
        for position in part {
            agenda.add(*position, f.clause(*position).len())?;
        }
        Ok(agenda)
    }

    // Puts the clause at a position inside, which has this many literals, all unset.
    fn add(&mut self, position: u32, literals: usize) -> Result<(), OutOfMemory>
        requires first { 0 < position }
        requires last { position ≤ length self.old.inside }
        ensures { OnOk result (self.new.inside ≡ with_variable self.old.inside position) }
    {
        let place = position as usize - 1;
        let count = Count {
            unset: u32::try_from(literals).unwrap_or(u32::MAX),
            holding: 0,
        };
        self.inside[place] = true;
        self.counts[place] = count;
        self.call(position)
    }

    /// Notes a change of one literal in each of the clauses at the positions, as far as these are inside.
    pub fn note_all(&mut self, positions: &[u32], change: Change) -> Result<(), OutOfMemory>
        requires { IsTrue (rises_within 0 (length self.old.inside) positions.now) }
        ensures { self.new.inside ≡ self.old.inside }
    {
        for position in positions {
            self.note(*position, change)?;
        }
        Ok(())
    }

    // Notes a change of one literal in the clause at a position.
    fn note(&mut self, position: u32, change: Change) -> Result<(), OutOfMemory>
        requires first { 0 < position }
        requires last { position ≤ length self.old.inside }
        ensures { self.new.inside ≡ self.old.inside }
    {
        let place = position as usize - 1;
        self.counts[place].note(change);
        self.call(position)
    }

    // Lets a clause inside wait where its counts let it ask for something.
    fn call(&mut self, position: u32) -> Result<(), OutOfMemory>
        requires first { 0 < position }
        requires last { position ≤ length self.old.inside }
        ensures { self.new.inside ≡ self.old.inside }
    {
        let place = position as usize - 1;
        if self.inside[place] && self.counts[place].asks() {
            self.waiting.push_back(position)?;
        }
        Ok(())
    }

    /// Whether the clause at a position is inside.
    pub fn has(&self, position: u32) -> bool
        requires first { 0 < position }
        requires last { position ≤ length self.now.inside }
        ensures { result ≡ is_in self.now.inside position }
    {
        self.inside[position as usize - 1]
    }

    /// How many literals of the clause at a position are unset, where it is inside and none is true.
    pub fn unset_at(&self, position: u32) -> Option<u32> {
        let place = (position as usize).checked_sub(1)?;
        let count = self.counts.get(place).copied()?;
        let inside = self.inside.get(place).copied()?;
        if inside && count.holding == 0 {
            Some(count.unset)
        } else {
            None
        }
    }

    /// The next clause that waits, which waits no more.
    pub fn next(&mut self) -> Option<u32>
        ensures inside { self.new.inside ≡ self.old.inside }
        ensures position { IfSome result (λ position. IsTrue (is_in self.old.inside position)) }
        ensures fewer { IfSome result (λ _. length self.new.waiting + 1 ≡ length self.old.waiting) }
    {
        self.waiting.pop_front()
    }
}
