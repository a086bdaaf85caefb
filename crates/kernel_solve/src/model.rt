//! A model of a formula from models of the parts of its matching kernel.
ghost use Rattle.std.specs.Prelude.{map, IfOk};
ghost use Rattle.lk_model.specs.Formulas.Formula.{positions_of};
ghost use Rattle.matching_laws.specs.MatchingResults.{IsMatchingResult};
ghost use Rattle.part_copy.specs.Found.{sets_only};
ghost use Rattle.autarky_compose.specs.JoinedGeneral.{AreJoinable};
ghost use Rattle.kernel_solve.specs.KernelParts.{AreKernelModels, IsJoinedModel};
ghost use Rattle.kernel_solve.specs.Solutions.{IsTotalModel};

use autarky_compose::join_general;
use lk_model::{Formula, GeneralResult, List, Lit, MatchingResult, OutOfMemory};
use matching_kernel::set_of_own;
use partial_assign::{assignment_of, extend_total};
use std::alloc::Global;

/// A literal for each variable, ascending: it is true by the matching if that sets the variable, else by the
/// model of a part if one does, and else negative.
pub(crate) fn model_of(
    alloc: Global,
    f: &Formula,
    found: &MatchingResult,
    models: List<List<Lit>>,
) -> Result<List<Lit>, OutOfMemory>
    requires matching { IsMatchingResult f.now (positions_of f.now) found.now }
    requires models { AreKernelModels f.now found.now.kept models }
    ensures { IfOk result (IsTotalModel f.now) }
{
    let model = joined(alloc, models)?;
    let set = set_of_own(alloc, f, found.own.as_slice())?;
    let phi = assignment_of(alloc, f.vars(), set.as_slice())?;
    let psi = assignment_of(alloc, f.vars(), model.as_slice())?;
    extend_total(alloc, &phi, &psi)
}

// The literals of all models, ascending by variable.
fn joined(alloc: Global, models: List<List<Lit>>) -> Result<List<Lit>, OutOfMemory>
    requires { AreJoinable 0 (map sets_only models) }
    ensures { IfOk result (IsJoinedModel models) }
{
    let mut found = List::new(alloc);
    for set in models.into_vec() {
        found.push(GeneralResult {
            kept: List::new(alloc),
            set,
            rounds: List::new(alloc),
        })?;
    }
    // They keep no position and have no round, for which the number of clauses would matter.
    Ok(join_general(alloc, 0, found)?.set)
}
