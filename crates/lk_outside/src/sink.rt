//! Where outputs go.
ghost use Rattle.std.specs.Prelude.{◌≡◌, ℕ, ◌<◌, ◌≤◌, List, length, IfOk, OnErr, IsErr};
ghost use Rattle.std.specs.declared.option.Option.{Option};
ghost use Rattle.std.specs.Io.KnownBytes.{WriteAppends};
ghost use Rattle.lk_outside.specs.Causes.{HasCause};

use crate::shelf::Failed;

/// Takes bytes.
///
/// A sink may tell them to the contracts, or keep them to itself, as one over a real stream does.
pub trait Sink {
    /// All bytes taken so far, where the sink tells them.
    ghost written: { Self → Option (List ℕ) };

    /// A count that never falls, and rises with each call that fails, up to 2^64 - 1.
    ghost faults: { Self → ℕ };

    /// Takes at least one byte from the front of the piece, and says how many.
    ///
    /// After `Failed` none was taken.
    fn write(&mut self, piece: &[u8]) -> Result<usize, Failed>
        requires { 0 < length piece.now }
        ensures count { IfOk result (λ k. (0 < k) × (k ≤ length piece.now)) }
        ensures bytes { WriteAppends (written self.old) (written self.new) result piece.now }
        ensures kept { OnErr result (written self.new ≡ written self.old) }
        ensures cause { HasCause (faults self.old) (faults self.new) (IsErr result) };
}
