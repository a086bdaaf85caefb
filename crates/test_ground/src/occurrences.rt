//! Where literals occur.
ghost use Rattle.std.specs.Prelude.{◌≤◌, ◌<◌, ◌+◌, ◌*◌, length};
ghost use Rattle.lk_model.specs.Limits.{max_vars};

use crate::parts::put_numbers;
use lk_model::{Formula, Lit, OutOfMemory};
use occurrence_lists::OccurrenceLists;
use std::alloc::{AllocError, Global};

/// Writes how many clauses contain each literal, by rank, and for each variable the positions of those that contain it,
/// its complement, and both lists together.
pub(crate) fn put_lists(alloc: Global, f: &Formula, out: &mut String) -> Result<(), OutOfMemory> {
    let lists = OccurrenceLists::new(alloc, f)?;
    put_numbers(lists.counts(alloc)?.as_slice(), out)?;
    for v in 1..f.vars() + 1 {
        put_variable(&lists, v, out)?;
    }
    Ok(())
}

fn put_variable(lists: &OccurrenceLists, v: u32, out: &mut String) -> Result<(), AllocError>
    requires first { 0 < v }
    requires small { v ≤ max_vars }
    requires last { 2 * v + 1 < length lists.now }
{
    put_numbers(lists.positions(Lit::from_var(v, true)), out)?;
    put_numbers(lists.positions(Lit::from_var(v, false)), out)?;
    put_numbers(lists.positions_of_variable(v), out)
}
