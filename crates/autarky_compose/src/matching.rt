//! What the matching reducer finds in groups of positions, joined.
ghost use Rattle.std.specs.Prelude.{IfOk};
ghost use Rattle.autarky_compose.specs.JoinedMatching.{AreOfGroups, AreJoined};

use crate::ordering::{greatest_key, in_order};
use lk_model::{List, MatchRow, MatchingResult, OutOfMemory};
use std::alloc::Global;

/// The results for groups of the positions of a formula of m clauses, as its parts are, joined: what they
/// keep, their own lines by position and their rows by variable. No variable occurs in two groups.
pub fn join_matching(
    alloc: Global,
    m: u32,
    found: List<MatchingResult>,
) -> Result<MatchingResult, OutOfMemory>
    requires { AreOfGroups m found }
    ensures { IfOk result (λ t. AreJoined m found t) }
{
    let results = found.as_slice();
    let most = greatest_key::<MatchRow, MatchingResult>(results);
    Ok(MatchingResult {
        kept: in_order(alloc, m, results)?,
        own: in_order(alloc, m, results)?,
        rows: in_order(alloc, most, results)?,
    })
}
