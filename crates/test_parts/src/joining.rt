//! The matching kernel of a formula, part by part.
ghost use Rattle.std.specs.Prelude.{IfOk};
ghost use Rattle.std.specs.List.{AllByRecursion};
ghost use Rattle.lk_model.specs.Formulas.Formula.{positions_of};
ghost use Rattle.lk_model.specs.Formulas.Parts.{IsPart};
ghost use Rattle.matching_laws.specs.MatchingResults.{IsMatchingResult};
ghost use Rattle.autarky_compose.specs.JoinedMatching.{AreMatchingResults};

use autarky_compose::join_matching;
use lk_model::{Formula, List, MatchingResult, OutOfMemory};
use matching_kernel::matching_kernel;
use par_parts::parts;
use std::alloc::Global;

/// The matching kernel, found in each part by itself.
pub(crate) fn kernel_by_parts(alloc: Global, f: &Formula) -> Result<MatchingResult, OutOfMemory>
    ensures { IfOk result (λ r. IsMatchingResult f.now (positions_of f.now) r) }
{
    let list = parts(alloc, f)?;
    let found = kernels(alloc, f, list.as_slice())?;
    join_matching(alloc, f.len(), found)
}

/// The matching kernels of parts.
fn kernels(
    alloc: Global,
    f: &Formula,
    list: &[List<u32>],
) -> Result<List<MatchingResult>, OutOfMemory>
    requires { AllByRecursion (IsPart f.now) list.now }
    ensures { IfOk result (λ found. AreMatchingResults f.now list.now found) }
{
    let mut found = List::new(alloc);
    for part in list {
        let kernel = matching_kernel(alloc, f, part.as_slice())?;
        found.push(kernel)?;
    }
    Ok(found)
}
