//! Why there is no linear kernel.
ghost use Rattle.std.specs.Prelude.{◌≡◌};
ghost use Rattle.linear_kernel.specs.Moves.{stop_of};

use exact_pivot::{PivotStop, Wide};
use lk_model::OutOfMemory;
use std::alloc::{AllocError, AllocFailed};

/// Why there is no linear kernel.
#[derive(Clone, Copy)]
pub enum LinearStop {
    /// The rows would have more than 2^24 entries: a row for each of these variables, those that
    /// occur, and the cost row, with an entry for each clause, for each of the variables, for the cost
    /// unit and for the right side.
    TooLarge { vars: u32, clauses: u32 },
    /// After `pivots` pivots a result lies outside ±(2^127 - 1): its operands.
    TooWide { pivots: u64, wide: Wide },
    /// The run wants one more pivot than the stated number.
    Budget { pivots: u64 },
    /// Memory ran out.
    OutOfMemory,
}

impl LinearStop {
    // Why the run stops that has made `pivots` pivots.
    pub(crate) fn after(pivots: u64, stop: PivotStop) -> LinearStop
        ensures { result ≡ stop_of pivots stop }
    {
        match stop {
            PivotStop::Wide(wide) => LinearStop::TooWide { pivots, wide },
            PivotStop::OutOfMemory => LinearStop::OutOfMemory,
        }
    }
}

impl From<OutOfMemory> for LinearStop {
    ghost use Rattle.std.specs.Prelude.{◌≡◌};
    ghost use Rattle.linear_kernel.specs.declared.stop.LinearStop.TheVariants.{OutOfMemory as MemoryOut};

    ghost from_gives = { λ _ e. e ≡ MemoryOut };

    fn from(_e: OutOfMemory) -> LinearStop {
        LinearStop::OutOfMemory
    }
}
