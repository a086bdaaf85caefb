//! The linear kernel.
//!
//! A linear autarky of a formula has the signs of a weighting of its variables that has no negative balance in a
//! clause; a formula is linearly lean where no such weighting touches a clause (Kullmann, "Investigations on Autark
//! Assignments", 2000). The run finds a weighting, takes the clauses with its variables out, and goes on with the
//! others, until the rows of those that are left show that there is no weighting.
//!
//! Here a balance may be 0 in a clause that has a weight: one of its literals has the sign of its weight even so. The
//! clauses with a weight are taken out by one pass over the literals of those that are left, with a flag for each
//! variable. All numbers are exact, and the run stops where one of them is too wide.
ghost use Rattle.std.specs.Prelude.{◌≡◌, ◌≤◌, ◌+◌, ◌*◌, ◌^◌, nat_lt};
ghost use Rattle.lk_model.specs.Limits.{max_vars, max_clauses};
ghost use Rattle.linear_kernel.specs.Answers.{AnswersRun};

use crate::run::{Progress, Run};
use crate::stop::LinearStop;
use lk_model::{Formula, LinearResult};
use std::alloc::Global;

/// How many entries the rows may have.
const MAX_ENTRIES: u64 = 1 << 24;

/// The linear kernel of a formula, by the linear run with at most `pivots` pivots.
///
/// - `kept` has the positions of the kernel, ascending and counted from 1.
/// - `stages` has the weightings of the run, in its order. A variable has the sign of the first of them
///   that is not 0 on it.
/// - `dual` has a number for each kept clause, all of them above 0 and with balance 0 in each variable.
/// - `units` has for each variable of the kept clauses, ascending, shares of them that balance to a
///   number other than 0 in it and to 0 in the others.
///
/// `TooLarge` is reported before anything is done, exactly by the size of the rows. `Budget` and `TooWide` are
/// reported exactly where the run meets them first; of one pivot the budget is asked first.
pub fn linear_kernel(alloc: Global, f: &Formula, pivots: u64) -> Result<LinearResult, LinearStop>
    ensures { AnswersRun f.now pivots result }
{
    let kept = f.positions(alloc)?;
    let vars = f.occurring(alloc, kept.as_slice())?.len() as u32;
    let clauses = f.len();
    if is_too_large(vars, clauses) {
        return Err(LinearStop::TooLarge { vars, clauses });
    }
    let mut run = Run::begin(alloc, f, kept)?;
    'moves: loop {
        match run.advance(f, pivots)? {
            Progress::On(next) => run = next,
            Progress::Done(result) => return Ok(result),
        }
    }
}

// Whether the rows for these numbers of variables and clauses have too many entries.
fn is_too_large(vars: u32, clauses: u32) -> bool
    requires vars { vars ≤ max_vars }
    requires clauses { clauses ≤ max_clauses }
    ensures { result ≡ nat_lt (2 ^ 24) ((vars + 1) * (clauses + vars + 2)) }
{
    let rows = u64::from(vars) + 1;
    let columns = u64::from(clauses) + u64::from(vars) + 2;
    rows * columns > MAX_ENTRIES
}
