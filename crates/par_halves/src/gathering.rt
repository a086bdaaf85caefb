//! What calls found that may each run out of memory.
ghost use Rattle.std.specs.Prelude.{◌≡◌, map, Ok, IfOk};

use lk_model::{List, OutOfMemory};
use std::alloc::Global;

/// What all answers found, in their order. The error is that memory ran out, here or in an answer.
pub fn all_ok<T: Drop>(
    alloc: Global,
    answers: List<Result<T, OutOfMemory>>,
) -> Result<List<T>, OutOfMemory>
    ensures { IfOk result (λ found. answers ≡ map Ok found) }
{
    let mut found = List::new(alloc);
    for answer in answers.into_vec() {
        found.push(answer?)?;
    }
    Ok(found)
}
