//! What comes next, and why a call stops.
use exact_rows::SparseStop;
use lk_model::Wide;
use std::alloc::{AllocError, AllocFailed};

/// What the linear run does next.
#[derive(Clone, Copy)]
pub enum Next {
    /// It pivots on this row and column, which both count from 1.
    Pivot { row: u32, col: u32 },
    /// A stage stands: its weights touch a clause.
    Touch,
    /// It ends: the clauses are lean.
    Lean,
}

/// Why a call on a tableau has no result.
#[derive(Clone, Copy, Debug)]
pub enum PivotStop {
    /// The operands of the first result that lies outside ±(2^127 - 1).
    Wide(Wide),
    /// There was no memory.
    OutOfMemory,
}

impl From<Wide> for PivotStop {
    ghost use Rattle.std.specs.Prelude.{◌≡◌};
    ghost use Rattle.exact_pivot.specs.declared.stop.PivotStop.TheVariants.{Wide};

    ghost from_gives = { λ w e. e ≡ Wide w };

    fn from(w: Wide) -> PivotStop {
        PivotStop::Wide(w)
    }
}

impl From<SparseStop> for PivotStop {
    ghost use Rattle.std.specs.Prelude.{◌≡◌};
    ghost use Rattle.exact_pivot.specs.Stops.{stop_of};

    ghost from_gives = { λ stop e. e ≡ stop_of stop };

    fn from(stop: SparseStop) -> PivotStop {
        match stop {
            SparseStop::Wide(w) => PivotStop::Wide(w),
            SparseStop::OutOfMemory => PivotStop::OutOfMemory,
        }
    }
}

impl From<AllocError> for PivotStop {
    ghost use Rattle.std.specs.Prelude.{◌≡◌};
    ghost use Rattle.exact_pivot.specs.declared.stop.PivotStop.TheVariants.{OutOfMemory};

    ghost from_gives = { λ _ e. e ≡ OutOfMemory };

    fn from(_e: AllocError) -> PivotStop {
        PivotStop::OutOfMemory
    }
}

impl<T: Drop> From<AllocFailed<T>> for PivotStop {
    ghost use Rattle.std.specs.Prelude.{◌≡◌};
    ghost use Rattle.exact_pivot.specs.declared.stop.PivotStop.TheVariants.{OutOfMemory};

    ghost from_gives = { λ _ e. e ≡ OutOfMemory };

    fn from(_e: AllocFailed<T>) -> PivotStop {
        PivotStop::OutOfMemory
    }
}
