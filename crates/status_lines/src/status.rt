//! The statuses with which the program ends.
ghost use Rattle.std.specs.Prelude.{◌≡◌};
ghost use Rattle.status_lines.specs.Statuses.{code};
ghost use Rattle.status_lines.specs.StopLines.{status_of};

use command_stops::Stop;
use lk_outside::Failed;

/// The status with which the program ends.
#[derive(Clone, Copy)]
pub enum Status {
    /// The result was written.
    Done,
    /// The words are not lawful.
    Words,
    /// An input is outside its grammar.
    Input,
    /// A call on the shelf failed.
    ReadFault,
    /// A call on a sink failed.
    WriteFault,
    /// A budget was used up.
    Budget,
    /// A number has no room.
    TooWide,
    /// The formula is too large for the class.
    TooLarge,
    /// A check fails.
    Refused,
    /// There was no memory.
    Memory,
    /// The formula has a model.
    Satisfiable,
    /// The formula has no model.
    Unsatisfiable,
}

impl Status {
    /// Its number.
    pub fn code(self) -> u8
        ensures { result ≡ code self }
    {
        match self {
            Status::Done => 0,
            Status::Words => 1,
            Status::Input => 2,
            Status::ReadFault => 3,
            Status::WriteFault => 4,
            Status::Budget => 5,
            Status::TooWide => 6,
            Status::TooLarge => 7,
            Status::Refused => 8,
            Status::Memory => 9,
            Status::Satisfiable => 10,
            Status::Unsatisfiable => 20,
        }
    }
}

/// The number with which the program ends where a sink failed.
pub fn code_of_failure(_failed: Failed) -> u8
    ensures { result ≡ 4 }
{
    Status::WriteFault.code()
}

/// The status with which the program ends after a stop.
pub(crate) fn status_of(stop: Stop) -> Status
    ensures { result ≡ status_of stop }
{
    match stop {
        Stop::Words(_) => Status::Words,
        Stop::Formula(_)
        | Stop::Document(_)
        | Stop::Model(_)
        | Stop::Answer(_)
        | Stop::Edits { .. } => Status::Input,
        Stop::Read => Status::ReadFault,
        Stop::Memory => Status::Memory,
    }
}
