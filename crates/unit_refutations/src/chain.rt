//! Back along the trail from a false clause.
//!
//! Its literals are resolved with the clauses that forced their complements, the last one first, until none is left. As
//! in clause learning (Marques-Silva and Sakallah, "GRASP", 1996), but the trail is not walked along: the places that
//! are still to be resolved are in a heap, so that a chain costs its own clauses, however long the trail is.
ghost use Rattle.std.specs.Prelude.{IfOk};
ghost use Rattle.lk_model.specs.Lists.{among};
ghost use Rattle.lk_model.specs.Held.VariableSets.{IsCrossed};
ghost use Rattle.unit_refutations.specs.Trails.{IsReasoned};
ghost use Rattle.unit_refutations.specs.Chains.{IsConflict, LeadsToEmpty};

use crate::pending::Pending;
use crate::trail::Trail;
use lk_model::{Crossed, List, OutOfMemory, Turn};
use std::alloc::Global;

/// The turns of a chain, and the positions that it names, its first one before all.
#[derive(Drop)]
pub(crate) struct Chain {
    pub turns: Vec<Turn>,
    pub used: List<u32>,
}

/// The chain from a false clause to the empty one.
pub(crate) fn chain_from(
    alloc: Global,
    over: &Crossed,
    trail: &Trail,
    conflict: u32,
) -> Result<Chain, OutOfMemory>
    requires crossed { IsCrossed over.now }
    requires reasoned { IsReasoned over.now.formula.now (among over.now.part.now) over.now.blocked.now trail.now }
    requires conflict { IsConflict over.now trail.now conflict }
    ensures { IfOk result (LeadsToEmpty over.now conflict) }
{
    let mut turns = Vec::new(alloc);
    let mut used = List::new(alloc);
    let mut pending = Pending::new(alloc);
    used.push(conflict)?;
    pending.meet(over.formula.clause(conflict), over.blocked, trail)?;
    'places: while let Some(place) = pending.take_last() {
        let reason = trail.reason(place);
        turns.push(Turn {
            lit: trail.lit(place).negated(),
            with: u64::from(reason),
        })?;
        used.push(reason)?;
        pending.meet(over.formula.clause(reason), over.blocked, trail)?;
    }
    Ok(Chain { turns, used })
}
