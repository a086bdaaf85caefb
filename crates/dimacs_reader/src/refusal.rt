//! How texts are refused.
ghost use Rattle.std.specs.Prelude.{◌≡◌};
ghost use Rattle.dimacs_reader.specs.Faults.{refusal_at};
ghost use Rattle.dimacs_reader.specs.declared.refusal.Refused.TheVariants.{OutOfMemory as MemoryOut};

use crate::stop::Stop;
use lk_model::{FaultKind, OutOfMemory};
use std::alloc::{AllocError, AllocFailed};

/// Why a text is no formula, with the line of its first fault, counted from 1; or that memory ran out.
#[derive(Clone, Copy, Debug)]
pub enum Refused {
    /// The first line that is neither blank nor a comment does not begin with `p`, or there is none before
    /// the end mark or the end of the text.
    NoHeader { line: u64 },
    /// The first line that begins with `p` is not `p cnf V C`.
    BadHeader { line: u64 },
    /// A further line begins with `p`.
    SecondHeader { line: u64 },
    /// A word after the problem line is no number.
    BadToken { line: u64 },
    /// The variable of a literal is past V.
    BeyondStated { line: u64 },
    /// A number occurs when C clauses are closed.
    TooManyClauses { line: u64 },
    /// There are fewer than C clauses at the end mark or at the end of the text.
    TooFewClauses { line: u64 },
    /// V is past 1,000,000, C is past 4,000,000, or more than 20,000,000 literals are written.
    Limit { line: u64 },
    /// There are more than 2^30 bytes.
    TooLong { line: u64 },
    OutOfMemory,
}

impl Refused {
    /// The refusal at a stop, where this is the line of its fault.
    pub(crate) fn by(stop: Stop, line: u64) -> Refused
        ensures { result ≡ refusal_at line stop }
    {
        let Stop::Fault(fault) = stop else {
            return Refused::OutOfMemory;
        };
        match fault.kind {
            FaultKind::NoHeader => Refused::NoHeader { line },
            FaultKind::BadHeader => Refused::BadHeader { line },
            FaultKind::SecondHeader => Refused::SecondHeader { line },
            FaultKind::BadToken => Refused::BadToken { line },
            FaultKind::BeyondStated => Refused::BeyondStated { line },
            FaultKind::TooManyClauses => Refused::TooManyClauses { line },
            FaultKind::TooFewClauses => Refused::TooFewClauses { line },
            FaultKind::Limit => Refused::Limit { line },
            FaultKind::TooLong => Refused::TooLong { line },
        }
    }
}

impl From<AllocError> for Refused {
    ghost from_gives = { λ _ e. e ≡ MemoryOut };

    fn from(_e: AllocError) -> Refused {
        Refused::OutOfMemory
    }
}

impl<T: Drop> From<AllocFailed<T>> for Refused {
    ghost from_gives = { λ _ e. e ≡ MemoryOut };

    fn from(_e: AllocFailed<T>) -> Refused {
        Refused::OutOfMemory
    }
}

impl From<OutOfMemory> for Refused {
    ghost from_gives = { λ _ e. e ≡ MemoryOut };

    fn from(_e: OutOfMemory) -> Refused {
        Refused::OutOfMemory
    }
}
