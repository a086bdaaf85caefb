//! Logs of chains that are given.
ghost use Rattle.std.specs.Prelude.{◌≡◌, ◌+◌, ◌-◌, ◌<◌, ◌^◌, [], false, length, IfOk, IfSome, IsNone, IsTrue};
ghost use Rattle.lk_model.specs.Formulas.Formula.{positions_of};
ghost use Rattle.lk_model.specs.Held.VariableSets.{IsCrossed};
ghost use Rattle.lk_model.specs.Chains.Rounds.{is_refutation};
ghost use Rattle.refutation_log.specs.Derivation.{Derivation, IsLog};
ghost use Rattle.refutation_log.specs.Replayed.{IsReplayed};

use crate::chain::Chain;
use crate::log::Log;
use lk_model::{Crossed, OutOfMemory};
use std::alloc::Global;

/// The log of chains over all clauses of a formula, one after another, numbered from `next`, if they
/// refute it: each has a clause, and that of the last one and of no other is empty.
pub fn replay(
    alloc: Global,
    over: &Crossed,
    next: u64,
    chains: &[Chain],
) -> Result<Option<Log>, OutOfMemory>
    requires crossed { IsCrossed over.now }
    requires whole { over.now.part.now ≡ positions_of over.now.formula.now }
    requires past { length over.now.formula.now.clauses < next }
    requires room { next + length chains.now < 2 ^ 64 - 1 }
    ensures some { IfOk result (λ o. IfSome o (IsReplayed over.now next chains.now)) }
    ensures none { IfOk result (λ o. IsNone o → (log : Derivation) → ¬ (IsReplayed over.now next chains.now log)) }
{
    let mut log = Log::new(alloc, next);
    if push_chains(over, chains, &mut log)? {
        Ok(Some(log))
    } else {
        Ok(None)
    }
}

// Appends a step for each chain, and returns whether they refute, each of them needed.
fn push_chains(over: &Crossed, chains: &[Chain], log: &mut Log) -> Result<bool, OutOfMemory>
    requires crossed { IsCrossed over.now }
    requires whole { over.now.part.now ≡ positions_of over.now.formula.now }
    requires past { length over.now.formula.now.clauses < log.old.first }
    requires room { log.old.first + length chains.now < 2 ^ 64 - 1 }
    requires empty { log.old.steps ≡ [] }
    ensures done { IfOk result (λ done. IsTrue done → IsReplayed over.now log.old.first chains.now log.new) }
    ensures none { IfOk result
        (λ done. done ≡ false → (d : Derivation) → ¬ (IsReplayed over.now log.old.first chains.now d)) }
{
    for chain in chains {
        if is_refutation(log) {
            return Ok(false);
        }
        let turns = chain.turns.as_slice();
        if !log.has_chain(over, chain.first, turns)? {
            return Ok(false);
        }
        log.push_chain(over, chain.first, turns)?;
    }
    Ok(is_refutation(log))
}

// Whether the last clause is empty.
fn is_refutation(log: &Log) -> bool
    ensures value { result ≡ is_refutation log.now.steps }
    ensures log { IsLog log.now.first log.now.steps }
{
    log.len() > 0 && log.last_clause().is_empty()
}
