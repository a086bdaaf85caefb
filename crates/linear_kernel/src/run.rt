//! A linear run at one moment, and its moves.
ghost use Rattle.std.specs.Prelude.{◌≡◌, ℕ, ◌<◌, ◌^◌, ◌-◌, ◌++◌, ◌∷◌, [], List, IfOk, OnOk, IsTrue};
ghost use Rattle.lk_model.specs.Formulas.Formula.{positions_of};
ghost use Rattle.lk_model.specs.Formulas.Lean.{are_positions};
ghost use Rattle.lk_model.specs.Linear.Phases.{next, PivotOn, StageStands, EndsLean, stage_of, made_in_stage};
ghost use Rattle.lk_model.specs.Linear.Phases.{unweighted};
ghost use Rattle.lk_model.specs.Linear.LinearRun.{moved, after_pivot, after_stage, at_end};
ghost use Rattle.exact_pivot.specs.Reached.{IsReached};
ghost use Rattle.linear_run_laws.specs.MovesLaw.{first_moment, IsWithin};
ghost use Rattle.linear_kernel.specs.Moves.{GivesAfter, LeadsTo, LeadsOn, LeadsOut};

use crate::counted::{end_of, pivoted, stage_of};
use crate::stop::LinearStop;
use crate::weighted::unweighted;
use exact_pivot::{Next, Tableau};
use lk_model::{Formula, LinearResult, List, OutOfMemory, Stage};
use std::alloc::Global;
use std::marker::Model;

/// A linear run at one moment: the pivots that it has made, its stages, the positions that these leave,
/// and the rows for them.
#[derive(Drop)]
pub(crate) struct Run {
    alloc: Global,
    pivots: u64,
    stages: List<Stage>,
    kept: List<u32>,
    rows: Tableau,
}

impl Model for Run {
    ghost use Rattle.std.specs.Prelude.{◌≡◌};
    ghost use Rattle.lk_model.specs.Linear.LinearRun.{Moment};

    ghost Value = { Moment };

    ghost view = { λ r. record { pivots = r.pivots; stages = r.stages; rows = r.rows } };

    ghost invariant = { λ r. r.kept ≡ r.rows.positions };
}

/// Where a move leads that does not stop the run.
#[derive(Drop)]
pub(crate) enum Progress {
    /// To a later moment.
    On(Run),
    /// To the end.
    Done(LinearResult),
}

impl Run {
    /// The moment before the first move, from all positions.
    pub fn begin(alloc: Global, f: &Formula, kept: List<u32>) -> Result<Run, OutOfMemory>
        requires { kept ≡ positions_of f.now }
        ensures { IfOk result (λ m. m ≡ first_moment f.now) }
    {
        let rows = Tableau::of(alloc, f, kept.as_slice())?;
        Ok(Run {
            alloc,
            pivots: 0,
            stages: List::new(alloc),
            kept,
            rows,
        })
    }

    /// One move of a run that may make `budget` pivots.
    pub fn advance(self, f: &Formula, budget: u64) -> Result<Progress, LinearStop>
        requires within { IsWithin f.now budget self }
        requires positions { IsTrue (are_positions f.now self.rows.positions) }
        ensures { LeadsTo budget (moved f.now budget self) result }
    {
        match self.rows.next_pivot() {
            Next::Pivot { row, col } => {
                if self.pivots == budget {
                    return Err(LinearStop::Budget { pivots: budget });
                }
                Ok(Progress::On(self.pivot(row, col)?))
            }
            Next::Touch => Ok(Progress::On(self.stage(f)?)),
            Next::Lean => Ok(Progress::Done(self.end()?)),
        }
    }

    // The moment after the pivot that comes next.
    fn pivot(self, row: u32, col: u32) -> Result<Run, LinearStop>
        requires next { next self.rows ≡ PivotOn row col }
        requires few { self.pivots < 2 ^ 64 - 1 }
        ensures { LeadsOn (after_pivot self row col) result }
    {
        let rows = pivoted(self.pivots, self.rows, row, col)?;
        Ok(Run {
            alloc: self.alloc,
            pivots: self.pivots + 1,
            stages: self.stages,
            kept: self.kept,
            rows,
        })
    }

    // The moment after the stage that stands, which takes its clauses out.
    fn stage(self, f: &Formula) -> Result<Run, LinearStop>
        requires reached { (at : List ℕ) × IsReached f.now at self.rows }
        requires positions { IsTrue (are_positions f.now self.rows.positions) }
        requires next { next self.rows ≡ StageStands }
        ensures { LeadsOn (after_stage f.now self) result }
    {
        let mut stages = self.stages;
        let kept = push_stage(
            &mut stages,
            self.alloc,
            self.pivots,
            f,
            self.rows,
            self.kept.as_slice(),
        )?;
        let rows = Tableau::of(self.alloc, f, kept.as_slice())?;
        Ok(Run {
            alloc: self.alloc,
            pivots: self.pivots,
            stages,
            kept,
            rows,
        })
    }

    // The end, where the clauses of the rows are lean.
    fn end(self) -> Result<LinearResult, LinearStop>
        requires { next self.rows ≡ EndsLean }
        ensures { LeadsOut self.pivots (at_end self) result }
    {
        let (dual, units) = end_of(self.pivots, &self.rows)?;
        Ok(LinearResult {
            kept: self.kept,
            stages: self.stages,
            dual,
            units,
        })
    }
}

// Appends the stage that stands, and returns which of the positions it leaves.
fn push_stage(
    stages: &mut List<Stage>,
    alloc: Global,
    pivots: u64,
    f: &Formula,
    rows: Tableau,
    kept: &[u32],
) -> Result<List<u32>, LinearStop>
    requires reached { (at : List ℕ) × IsReached f.now at rows }
    requires positions { IsTrue (are_positions f.now kept.now) }
    requires next { next rows ≡ StageStands }
    ensures rest { GivesAfter pivots (made_in_stage rows) (unweighted f.now (stage_of rows) kept.now) result }
    ensures stages { OnOk result (stages.new ≡ stages.old ++ stage_of rows ∷ []) }
{
    let stage = stage_of(pivots, rows)?;
    let rest = unweighted(alloc, f, &stage, kept)?;
    stages.push(stage)?;
    Ok(rest)
}
