//! Variables that come into an order, one after another.
ghost use Rattle.std.specs.Prelude.{◌≡◌, ◌<◌, ◌≤◌, ◌==◌, ◌&&◌, not, ℕ, IfOk, OnOk, IsTrue};
ghost use Rattle.lk_model.specs.Held.VariableSets.{is_in, IsCrossed};
ghost use Rattle.variable_orders.specs.Arrivals.{IsComing};

use crate::numbers::occurring;
use lk_model::{Crossed, OutOfMemory, VarSet};
use std::alloc::Global;

/// The variables that have come, in their order, and the set of those that are ahead.
#[derive(Drop)]
pub(crate) struct Coming {
    pub vars: Vec<u32>,
    pub ahead: VarSet,
}

impl Coming {
    /// Where none has come.
    pub fn new(alloc: Global, over: &Crossed) -> Result<Coming, OutOfMemory>
        requires { IsCrossed over.now }
        ensures { IfOk result (IsComing over.now) }
    {
        Ok(Coming {
            vars: Vec::new(alloc),
            ahead: occurring(alloc, over)?,
        })
    }

    /// Lets a variable come that is ahead.
    pub fn come(&mut self, over: &Crossed, v: u32) -> Result<(), OutOfMemory>
        requires coming { IsComing over.now self.old }
        requires first { 0 < v }
        requires last { v ≤ over.now.formula.now.vars }
        requires ahead { IsTrue (is_in self.old.ahead v) }
        ensures coming { OnOk result (IsComing over.now self.new) }
        ensures ahead { (u : ℕ) → is_in self.new.ahead u ≡ (is_in self.old.ahead u && not (u == v)) }
    {
        self.ahead.remove(v);
        self.vars.push(v)?;
        Ok(())
    }
}
