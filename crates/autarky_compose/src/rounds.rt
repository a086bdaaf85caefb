//! Rounds of several results, one after another, with the numbers of their steps.
ghost use Rattle.std.specs.Prelude.{◌≡◌, ◌+◌, ◌<◌, ◌^◌, [], length, IfOk};
ghost use Rattle.lk_model.specs.Documents.Documents.{steps_of};
ghost use Rattle.autarky_compose.specs.JoinedGeneral.{rounds_behind};

use lk_model::{GeneralResult, List, OutOfMemory, Round};
use result_renaming::Renaming;
use std::alloc::Global;

/// The rounds of all results, over m clauses. Their steps are numbered through all of them.
pub(crate) fn all_rounds(
    alloc: Global,
    m: u32,
    found: List<GeneralResult>,
) -> Result<List<Round>, OutOfMemory>
    ensures { IfOk result (λ rounds. (rounds ≡ rounds_behind m [] found) × (m + length (steps_of rounds) < 2 ^ 64)) }
{
    let positions = u64::from(m);
    let mut rounds = List::new(alloc);
    let mut last = positions;
    for r in found.into_vec() {
        let later = Renaming {
            positions,
            last,
            part: &[],
            names: &[],
        };
        last = later.append(alloc, &mut rounds, r.rounds)?;
    }
    Ok(rounds)
}
