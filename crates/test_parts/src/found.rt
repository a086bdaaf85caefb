//! What is found of a formula in each way, as a text that can be compared.
ghost use Rattle.std.specs.Prelude.{◌≤◌};

use crate::command::budget_of;
use crate::judging::{put_judged, put_mus};
use crate::lines::{put_general, put_kept, put_solved};
use kernel_solve::solve;
use lk_model::Formula;
use lk_outside::{Gate, OpenGate};
use mus_core::minimal;
use part_kernels::{general_by_parts, matching_by_parts};
use std::alloc::Global;
use std::test::Fail;
use std::thread::Threads;

/// A formula, what is looked for in it, and by how many learned clauses for each single decision.
#[derive(Drop)]
pub(crate) struct Search<'a> {
    /// `matching` and `general`: its kernel. `judged` and `solution`: whether it has a model, as what is said of the answer
    /// and as a whole. Else a core, in the way of a command.
    pub way: &'a str,
    pub formula: &'a Formula,
    pub conflicts: u32,
}

/// Writes what this many workers find with a gate.
pub(crate) fn put_found<R: Threads + Sync, G: Gate>(
    rt: &R,
    alloc: Global,
    gate: &G,
    s: &Search<'_>,
    workers: u32,
    out: &mut String,
) -> Result<(), Fail> {
    let f = s.formula;
    let workers = workers.max(1);
    let budget = budget_of(s.conflicts)?;
    match s.way {
        "matching" => Ok(put_kept(matching_by_parts(rt, alloc, gate, f, workers)?, out)?),
        "general" => Ok(put_general(general_by_parts(rt, alloc, gate, f, budget, workers)?, out)?),
        "solution" => Ok(put_solved(solve(rt, alloc, gate, f, budget, workers)?, out)?),
        "judged" => put_judged(alloc, s, solve(rt, alloc, gate, f, budget, workers)?, out),
        _ => put_mus(alloc, s, minimal(alloc, f, budget)?, out),
    }
}

/// What this many workers find with a gate that holds nothing.
pub(crate) fn found<R: Threads + Sync>(
    rt: &R,
    alloc: Global,
    s: &Search<'_>,
    workers: u32,
) -> Result<String, Fail> {
    let mut out = String::new(alloc);
    put_found(rt, alloc, &OpenGate, s, workers, &mut out)?;
    Ok(out)
}
