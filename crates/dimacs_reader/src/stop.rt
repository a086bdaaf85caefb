//! Why reading ends without a formula.
ghost use Rattle.dimacs_reader.specs.declared.stop.Stop.TheVariants.{Fault as FaultStop, OutOfMemory as MemoryStop};
ghost use Rattle.std.specs.Prelude.{◌≡◌};

use lk_model::{Fault, FaultKind, OutOfMemory};

/// Why reading ends without a formula.
#[derive(Clone, Copy)]
pub(crate) enum Stop {
    /// The text has this fault.
    Fault(Fault),
    OutOfMemory,
}

impl From<Fault> for Stop {
    ghost from_gives = { λ fault s. s ≡ FaultStop fault };

    fn from(fault: Fault) -> Stop {
        Stop::Fault(fault)
    }
}

impl From<OutOfMemory> for Stop {
    ghost from_gives = { λ _ s. s ≡ MemoryStop };

    fn from(_e: OutOfMemory) -> Stop {
        Stop::OutOfMemory
    }
}

/// A fault at a place.
pub(crate) fn fault_at(kind: FaultKind, place: usize) -> Fault
    ensures { result ≡ record { kind = kind; place = place } }
{
    Fault { kind, place }
}
