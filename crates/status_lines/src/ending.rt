//! How a run ends.
ghost use Rattle.std.specs.Prelude.{◌≡◌, IfOk};
ghost use Rattle.status_lines.specs.StopLines.{Tells, status_of};

use crate::lines::line_of;
use crate::status::{Status, status_of};
use command_stops::Stop;
use lk_model::OutOfMemory;
use std::alloc::Global;

/// The status with which the program ends, what it writes on `out`, and what it then says.
#[derive(Drop)]
pub struct Ending {
    pub status: Status,
    pub written: Vec<u8>,
    pub said: Vec<u8>,
}

/// The ending of a stop: its line is said, and nothing is written.
pub fn ending_of(alloc: Global, stop: Stop) -> Result<Ending, OutOfMemory>
    ensures status { IfOk result (λ e. e.status ≡ status_of stop) }
    ensures texts { IfOk result (λ e. Tells stop e.written.items e.said.items) }
{
    Ok(Ending {
        status: status_of(stop),
        written: Vec::new(alloc),
        said: line_of(alloc, stop)?,
    })
}
