//! The variables that occur in crossed clauses, by their connection.
//!
//! The next variable is each time the one that shares most with those before, as in a maximum cardinality search
//! (Tarjan and Yannakakis, "Simple Linear-Time Algorithms to Test Chordality of Graphs", 1984; as an order of
//! decisions: Amir and McIlraith, "Solving Satisfiability using Decomposition and the Most Constrained Subproblem",
//! 2001). How much it shares is counted in points (`points`). If none has any, the next one is the least that is
//! ahead.
ghost use Rattle.std.specs.Prelude.{◌≡◌, ◌<◌, ◌≤◌, ◌==◌, ◌&&◌, not, ℕ, false, IfOk, OnOk, IsTrue};
ghost use Rattle.lk_model.specs.Held.VariableSets.{is_in, IsCrossed};
ghost use Rattle.occurrence_lists.specs.Occurrences.{AreOccurrences};
ghost use Rattle.variable_orders.specs.VariableOrders.{IsOrderOver};
ghost use Rattle.variable_orders.specs.Arrivals.{IsComing};

use crate::coming::Coming;
use crate::points::Points;
use lk_model::{Crossed, OutOfMemory};
use occurrence_lists::OccurrenceLists;
use std::alloc::Global;

/// The variables that occur in the crossed clauses, each once, in an order in which each shares much with those before
/// it. No clause says which order it is.
pub fn by_connection(alloc: Global, over: &Crossed) -> Result<Vec<u32>, OutOfMemory>
    requires { IsCrossed over.now }
    ensures { IfOk result (λ vars. IsOrderOver over.now vars.items) }
{
    let holders = OccurrenceLists::new(alloc, over.formula)?;
    let mut points = Points::new(alloc, over)?;
    let mut coming = Coming::new(alloc, over)?;
    for v in 1..over.formula.vars() + 1 {
        if coming.ahead.has(v) {
            come(over, &holders, v, &mut points, &mut coming)?;
            come_connected(over, &holders, &mut points, &mut coming)?;
        }
    }
    Ok(coming.vars)
}

/// Lets variables come until none that is ahead has points.
fn come_connected(
    over: &Crossed,
    holders: &OccurrenceLists,
    points: &mut Points,
    coming: &mut Coming,
) -> Result<(), OutOfMemory>
    requires holders { AreOccurrences over.now.formula.now holders.now }
    requires coming { IsComing over.now coming.old }
    ensures coming { OnOk result (IsComing over.now coming.new) }
    ensures fewer { (u : ℕ) → is_in coming.old.ahead u ≡ false → is_in coming.new.ahead u ≡ false }
{
    // No more come than there are.
    for _ in 0..over.formula.vars() {
        match points.next(over.formula.vars(), &coming.ahead) {
            Some(v) => come(over, holders, v, points, coming)?,
            None => return Ok(()),
        }
    }
    Ok(())
}

/// Lets a variable come, and gives the points that it brings.
fn come(
    over: &Crossed,
    holders: &OccurrenceLists,
    v: u32,
    points: &mut Points,
    coming: &mut Coming,
) -> Result<(), OutOfMemory>
    requires holders { AreOccurrences over.now.formula.now holders.now }
    requires coming { IsComing over.now coming.old }
    requires first { 0 < v }
    requires last { v ≤ over.now.formula.now.vars }
    requires ahead { IsTrue (is_in coming.old.ahead v) }
    ensures coming { OnOk result (IsComing over.now coming.new) }
    ensures ahead { (u : ℕ) → is_in coming.new.ahead u ≡ (is_in coming.old.ahead u && not (u == v)) }
{
    coming.come(over, v)?;
    points.give(over, holders.positions_of_variable(v), &coming.ahead)
}
