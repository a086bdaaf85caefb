//! The order in which variables are decided.
//!
//! A place is kept before which all are set, so that set variables are not gone through at each decision: a return to a
//! level brings back the place at which the level after it was opened.
ghost use Rattle.std.specs.Prelude.{◌≡◌, ◌<◌, ◌++◌, ◌∷◌, [], take, length, IfSome, IsNone, OnOk, IsTrue};
ghost use Rattle.lk_model.specs.Lists.{among};
ghost use Rattle.watch_prop.specs.Propagation.{assigned};
ghost use Rattle.cdcl_core.specs.Orders.{IsPlacedAt, are_set, are_within, place_at};

use lk_model::OutOfMemory;
use std::alloc::Global;
use watch_prop::Propagator;

/// The variables of the crossed clauses in some order, and from which place on an unset one is searched. What
/// a return to a level makes unset stands from the place on at which the next level was opened.
#[derive(Drop)]
pub(crate) struct Order {
    /// The variables.
    pub vars: Vec<u32>,
    /// All before this place are set.
    pub place: usize,
    /// For each level below the present one, the place of the variable that opened the next one.
    pub opened: Vec<usize>,
}

impl Order {
    /// Where nothing is set.
    pub fn new(alloc: Global, vars: Vec<u32>) -> Order
        ensures vars { result.vars ≡ vars }
        ensures place { result.place ≡ 0 }
        ensures opened { result.opened.items ≡ [] }
    {
        Order {
            vars,
            place: 0,
            opened: Vec::new(alloc),
        }
    }

    /// The first variable that is unset.
    pub fn next(&mut self, p: &Propagator) -> Option<u32>
        requires within { IsTrue (are_within p.now.vars self.old.vars.items) }
        requires placed { IsPlacedAt p.now.trail self.old }
        ensures vars { self.new.vars ≡ self.old.vars }
        ensures placed { IsPlacedAt p.now.trail self.new }
        ensures next { IfSome result (λ v. IsTrue (among self.new.vars.items v)) }
        ensures unset { IfSome result (λ v. IsNone (assigned p.now v)) }
        ensures all { IsNone result → IsTrue (are_set p.now.trail self.new.vars.items) }
    {
        'vars: while self.place < self.vars.len() {
            let v = self.vars[self.place];
            if p.value(v).is_none() {
                return Some(v);
            }
            self.place += 1;
        }
        None
    }

    /// Notes that the variable at the place opens a level.
    pub fn open(&mut self) -> Result<(), OutOfMemory>
        ensures vars { self.new.vars ≡ self.old.vars }
        ensures place { self.new.place ≡ self.old.place }
        ensures opened { OnOk result (self.new.opened.items ≡ self.old.opened.items ++ self.old.place ∷ []) }
    {
        self.opened.push(self.place)?;
        Ok(())
    }

    /// Goes back to a level below the present one.
    pub fn back(&mut self, level: u32)
        requires { level < length self.old.opened.items }
        ensures vars { self.new.vars ≡ self.old.vars }
        ensures place { self.new.place ≡ place_at self.old.opened.items level }
        ensures opened { self.new.opened.items ≡ take level self.old.opened.items }
    {
        let level = level as usize;
        self.place = self.opened[level];
        self.opened.truncate(level);
    }
}
