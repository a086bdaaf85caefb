//! Empty clauses, each of which is a core by itself.
ghost use Rattle.std.specs.Prelude.{◌≡◌, ◌∷◌, [], IfOk, IsTrue};
ghost use Rattle.lk_model.specs.Formulas.Formula.{IsWithinLimits, is_formula, first_empty};
ghost use Rattle.lk_model.specs.Chains.Rounds.{empty_round};
ghost use Rattle.general_laws.specs.CoreLaw.{IsCore};
ghost use Rattle.empty_clauses.specs.EmptyAt.{IsEmptyAt};

use lk_model::{Formula, List, MusResult, OutOfMemory, Round, Step, Without};
use std::alloc::Global;

/// The least position of an empty clause.
pub fn first_empty(f: &Formula) -> Option<u32>
    ensures first { result ≡ first_empty f.now }
    ensures formula { IsTrue (is_formula f.now) }
    ensures limits { IsWithinLimits f.now }
{
    (1..f.len() + 1).find(|k| f.clause(*k).is_empty())
}

/// The round of one step that states the clause at a position, which is empty.
pub fn empty_round(alloc: Global, f: &Formula, position: u32) -> Result<Round, OutOfMemory>
    ensures round { IfOk result (λ r. r ≡ empty_round f.now position) }
    ensures limits { IsWithinLimits f.now }
{
    let mut steps = List::new(alloc);
    steps.push(Step {
        number: u64::from(f.len()) + 1,
        clause: List::new(alloc),
        first: u64::from(position),
        turns: List::new(alloc),
    })?;
    Ok(Round { steps })
}

/// The core of an empty clause: it alone, refuted by one step. The error says that memory ran out.
pub fn empty_core(alloc: Global, f: &Formula, p: u32) -> Result<MusResult, OutOfMemory>
    requires { IsEmptyAt f.now p }
    ensures core { IfOk result (λ r. IsCore f.now r.core r.round r.without) }
    ensures only { IfOk result (λ r. r.core ≡ p ∷ []) }
    ensures round { IfOk result (λ r. r.round ≡ empty_round f.now p) }
{
    let mut core = List::new(alloc);
    core.push(p)?;
    let round = empty_round(alloc, f, p)?;
    let mut without = List::new(alloc);
    without.push(Without {
        pos: p,
        lits: List::new(alloc),
    })?;
    Ok(MusResult {
        core,
        round,
        without,
    })
}
