//! The calls of a tableau, which stop with how many pivots were made.
ghost use Rattle.std.specs.Prelude.{◌≡◌, ◌++◌};
ghost use Rattle.lk_model.specs.Linear.Pivot.{pivoted, made_in_pivot};
ghost use Rattle.lk_model.specs.Linear.Phases.{next, PivotOn, StageStands, EndsLean, stage_of, made_in_stage};
ghost use Rattle.lk_model.specs.Linear.Ends.{dual_at_end, made_in_dual, units_at_end, made_in_units};
ghost use Rattle.linear_kernel.specs.Moves.{GivesAfter};

use crate::stop::LinearStop;
use exact_pivot::Tableau;
use lk_model::{Dual, List, Stage, Unit};

/// The rows after the pivot that comes next.
pub(crate) fn pivoted(pivots: u64, rows: Tableau, row: u32, col: u32) -> Result<Tableau, LinearStop>
    requires { next rows ≡ PivotOn row col }
    ensures { GivesAfter pivots (made_in_pivot rows row col) (pivoted rows row col) result }
{
    rows.pivot(row, col)
        .map_err(|stop| LinearStop::after(pivots, stop))
}

/// The stage that stands. The rows are gone then, before there are others.
pub(crate) fn stage_of(pivots: u64, rows: Tableau) -> Result<Stage, LinearStop>
    requires { next rows ≡ StageStands }
    ensures { GivesAfter pivots (made_in_stage rows) (stage_of rows) result }
{
    rows.stage().map_err(|stop| LinearStop::after(pivots, stop))
}

/// A dual for each clause and a unit for each variable, where the run ends lean.
pub(crate) fn end_of(pivots: u64, rows: &Tableau) -> Result<(List<Dual>, List<Unit>), LinearStop>
    requires { next rows.now ≡ EndsLean }
    ensures { GivesAfter pivots (made_in_dual rows.now ++ made_in_units rows.now)
        (dual_at_end rows.now, units_at_end rows.now) result }
{
    let dual = dual_of(pivots, rows)?;
    let units = units_of(pivots, rows)?;
    Ok((dual, units))
}

// A dual for each clause.
fn dual_of(pivots: u64, rows: &Tableau) -> Result<List<Dual>, LinearStop>
    requires { next rows.now ≡ EndsLean }
    ensures { GivesAfter pivots (made_in_dual rows.now) (dual_at_end rows.now) result }
{
    rows.dual().map_err(|stop| LinearStop::after(pivots, stop))
}

// A unit for each variable.
fn units_of(pivots: u64, rows: &Tableau) -> Result<List<Unit>, LinearStop>
    requires { next rows.now ≡ EndsLean }
    ensures { GivesAfter pivots (made_in_units rows.now) (units_at_end rows.now) result }
{
    rows.units().map_err(|stop| LinearStop::after(pivots, stop))
}
