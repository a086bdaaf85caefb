//! How `reduce linear` ends without a kernel.
ghost use Rattle.std.specs.Prelude.{◌≡◌, [], IfOk};
ghost use Rattle.status_lines.specs.LinearStops.{TellsStop};

use crate::ending::Ending;
use crate::lines::{budget_line, too_large_line, too_wide_line};
use crate::status::Status;
use linear_kernel::LinearStop;
use lk_model::OutOfMemory;
use std::alloc::Global;

/// The ending that says why there is no linear kernel.
pub fn ending_of_linear_stop(alloc: Global, stop: LinearStop) -> Result<Ending, OutOfMemory>
    ensures { IfOk result (λ e. TellsStop stop e.status e.written.items e.said.items) }
{
    match stop {
        LinearStop::TooLarge { vars, clauses } => {
            let line = too_large_line(alloc, vars, clauses)?;
            Ok(said(alloc, Status::TooLarge, line))
        }
        LinearStop::TooWide { pivots, wide } => {
            let line = too_wide_line(alloc, pivots, wide)?;
            Ok(said(alloc, Status::TooWide, line))
        }
        LinearStop::Budget { pivots } => {
            let line = budget_line(alloc, pivots)?;
            Ok(said(alloc, Status::Budget, line))
        }
        LinearStop::OutOfMemory => Err(OutOfMemory),
    }
}

/// The ending that writes nothing, and says a line.
fn said(alloc: Global, status: Status, line: Vec<u8>) -> Ending
    ensures status { result.status ≡ status }
    ensures written { result.written.items ≡ [] }
    ensures said { result.said.items ≡ line.items }
{
    Ending {
        status,
        written: Vec::new(alloc),
        said: line,
    }
}
