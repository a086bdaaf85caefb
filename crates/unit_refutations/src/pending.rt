//! The places of true literals on which a chain is still to be resolved.
ghost use Rattle.std.specs.Prelude.{◌≡◌, ◌+◌, ◌*◌, ◌<◌, ◌≤◌, ◌&&◌, not, ◌==◌, ◌||◌, ℕ, [], length, IfNone, IfSome};
ghost use Rattle.std.specs.Prelude.{OnOk, IsTrue};
ghost use Rattle.lk_model.specs.Lists.{among};
ghost use Rattle.lk_model.specs.Formulas.Literal.{is_clause};
ghost use Rattle.lk_model.specs.Formulas.Crossed.{crossed_out};
ghost use Rattle.lk_model.specs.Held.VariableSets.{is_in};
ghost use Rattle.unit_refutations.specs.Chains.{HaveMet, IsTakenOut, IsGreatest, IsPopped};

use crate::trail::Trail;
use lk_model::{Lit, OutOfMemory, VarSet};
use std::alloc::Global;
use std::collections::BinaryHeap;
use std::marker::Model;

/// Places, of which the last one is taken out first. Contracts see them in no order that counts.
#[derive(Drop)]
pub(crate) struct Pending {
    places: BinaryHeap<usize>,
}

impl Model for Pending {
    ghost use Rattle.std.specs.Prelude.{ℕ, List};
    ghost use Rattle.std.specs.Ordering.{nat_cmp};
    ghost use Rattle.std.specs.BinaryHeap.{heap_items, IsHeap};

    ghost Value = { List ℕ };

    ghost view = { λ p. heap_items p.places };

    ghost invariant = { λ p. IsHeap nat_cmp (heap_items p.places) };
}

impl Pending {
    /// No place.
    pub fn new(alloc: Global) -> Pending
        ensures { result ≡ [] }
    {
        Pending {
            places: BinaryHeap::new(alloc),
        }
    }

    /// Puts the places in at which the complements of a clause's literals stand, without those of blocked variables.
    pub fn meet(
        &mut self,
        clause: &[Lit],
        blocked: &VarSet,
        trail: &Trail,
    ) -> Result<(), OutOfMemory>
        requires clause { IsTrue (is_clause (length blocked.now) clause.now) }
        requires size { length trail.now.places ≡ 2 * length blocked.now + 2 }
        ensures { OnOk result (HaveMet trail.now (crossed_out (is_in blocked.now) clause.now) self.old self.new) }
    {
        for l in clause {
            if !blocked.has(l.var()) {
                if let Some(place) = trail.place(l.negated()) {
                    self.push(place)?;
                }
            }
        }
        Ok(())
    }

    /// Takes the last place out, where there is one.
    pub fn take_last(&mut self) -> Option<usize>
        ensures none { IfNone result (self.old ≡ []) }
        ensures some { IfSome result (λ last. IsTakenOut self.old last self.new) }
    {
        let last = self.pop()?;
        self.remove(last);
        Some(last)
    }

    // Takes a place out that no other one is greater than, as often as it is there.
    fn remove(&mut self, last: usize)
        requires { (place : ℕ) → IsTrue (among self.old place) → place ≤ last }
        ensures others { (place : ℕ) → among self.new place ≡ (among self.old place && not (place == last)) }
        ensures below { (place : ℕ) → IsTrue (among self.new place) → place < last }
    {
        while self.top() == Some(last) {
            self.pop();
        }
    }

    // Puts a place in.
    fn push(&mut self, place: usize) -> Result<(), OutOfMemory>
        ensures { OnOk result ((other : ℕ) → among self.new other ≡ (place == other || among self.old other)) }
    {
        self.places.push(place)?;
        Ok(())
    }

    // A place that no other one is greater than.
    fn top(&self) -> Option<usize>
        ensures none { IfNone result (self.now ≡ []) }
        ensures some { IfSome result (IsGreatest self.now) }
    {
        match self.places.peek() {
            Some(top) => Some(*top),
            None => None,
        }
    }

    // Takes such a place out.
    fn pop(&mut self) -> Option<usize>
        ensures none { IfNone result (self.old ≡ []) }
        ensures some { IfSome result (λ top. IsPopped self.old top self.new) }
    {
        self.places.pop()
    }
}
