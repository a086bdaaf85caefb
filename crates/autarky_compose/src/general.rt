//! What the general reducer finds in the parts of a formula, joined.
ghost use Rattle.std.specs.Prelude.{IfOk};
ghost use Rattle.autarky_compose.specs.JoinedGeneral.{AreJoinable, AreJoined};

use crate::ordering::{greatest_key, in_order};
use crate::rounds::all_rounds;
use lk_model::{GeneralResult, List, Lit, OutOfMemory};
use std::alloc::Global;

/// The results for the parts of a formula of m clauses, in their order, joined: the positions that they
/// keep, ascending, their literals, ascending by variable, and their rounds, one after another. The steps
/// are numbered from m + 1 through all rounds; more of them than have numbers of 64 bits count as memory
/// that ran out.
pub fn join_general(
    alloc: Global,
    m: u32,
    found: List<GeneralResult>,
) -> Result<GeneralResult, OutOfMemory>
    requires { AreJoinable m found }
    ensures { IfOk result (λ t. AreJoined m found t) }
{
    let results = found.as_slice();
    let most = greatest_key::<Lit, GeneralResult>(results);
    let kept = in_order(alloc, m, results)?;
    let set = in_order(alloc, most, results)?;
    let rounds = all_rounds(alloc, m, found)?;
    Ok(GeneralResult { kept, set, rounds })
}
