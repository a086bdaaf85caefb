//! The variables that occur in crossed clauses, by how often they do.
//!
//! Where no clauses hang together more than others, as in drawn formulas, a variable with many occurrences decides
//! most.
ghost use Rattle.std.specs.Prelude.{◌<◌, ◌≤◌, length, IfOk};
ghost use Rattle.lk_model.specs.Held.VariableSets.{IsCrossed};
ghost use Rattle.variable_orders.specs.VariableOrders.{IsOrderOver};

use crate::numbers::ascending;
use lk_model::{Crossed, OutOfMemory};
use std::alloc::Global;
use std::cmp::Reverse;

/// The variables that occur in the crossed clauses, each once: those that occur most often first, and of these the
/// least. No clause says which order it is.
pub fn by_occurrences(alloc: Global, over: &Crossed) -> Result<Vec<u32>, OutOfMemory>
    requires { IsCrossed over.now }
    ensures { IfOk result (λ vars. IsOrderOver over.now vars.items) }
{
    let counts = counts(alloc, over)?;
    let mut vars = ascending(alloc, over)?;
    vars.sort_unstable_by_key(|v| (Reverse(count_of(counts.as_slice(), *v)), *v));
    Ok(vars)
}

/// How often each variable occurs, by its number, with nothing at 0.
fn counts(alloc: Global, over: &Crossed) -> Result<Vec<u32>, OutOfMemory>
    requires { IsCrossed over.now }
{
    let mut counts = vec![in alloc; 0u32; over.formula.vars() as usize + 1]?;
    for position in over.part {
        count(over, *position, &mut counts);
    }
    Ok(counts)
}

/// Counts the literals of the crossed clause at a position.
fn count(over: &Crossed, position: u32, counts: &mut Vec<u32>)
    requires crossed { IsCrossed over.now }
    requires first { 0 < position }
    requires last { position ≤ length over.now.formula.now.clauses }
{
    for l in over.formula.clause(position) {
        if let Some(count) = counts.get_mut(l.var() as usize) {
            *count = count.saturating_add(1);
        }
    }
}

/// How often a variable occurs.
fn count_of(counts: &[u32], v: u32) -> u32 {
    counts.get(v as usize).copied().unwrap_or(0)
}
