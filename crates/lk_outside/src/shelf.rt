//! Where inputs come from.
//!
//! The program is proved over any shelf: over texts in memory a contract says what was read, and over files, whose
//! bytes no contract sees, the same contract still says which call failed.
ghost use Rattle.std.specs.Prelude.{◌≡◌, ◌≢◌, ℕ, ◌<◌, ◌≤◌, ◌↔◌, List, Bool, false, length, OnOk, IfOk};
ghost use Rattle.std.specs.Prelude.{IsErr, IsErrOf, IsTrue};
ghost use Rattle.std.specs.declared.option.Option.{Option};
ghost use Rattle.lk_outside.specs.Causes.{HasCause, TellsTheSame};
ghost use Rattle.lk_outside.specs.Reads.{ReadTakes};
ghost use Rattle.lk_outside.specs.declared.shelf.StartStop.TheVariants.{OutOfMemory as MemoryOut};

use lk_model::OutOfMemory;

/// A call on the outside failed. The method that returns it says in what state that leaves the object.
#[derive(Clone, Copy, Debug, PartialEq, Eq)]
pub struct Failed;

/// Why nothing was started.
#[derive(Clone, Copy, Debug, PartialEq, Eq)]
pub enum StartStop {
    /// The text did not open, or there is none of that name. Nothing is started.
    Failed,

    /// No memory was left for the name. The shelf is as it was before the call.
    OutOfMemory,
}

impl From<OutOfMemory> for StartStop {
    ghost from_gives = { λ _ e. e ≡ MemoryOut };

    fn from(_error: OutOfMemory) -> StartStop {
        StartStop::OutOfMemory
    }
}

/// Texts under names, one of which is read at a time.
///
/// A shelf may tell its bytes to the contracts, or keep them to itself, as one over files does.
pub trait Shelf {
    /// The bytes under a name, where the shelf tells them. No call changes them.
    ghost told: { Self → List ℕ → Option (List ℕ) };

    /// The bytes of the started name that are not yet read, where the shelf tells them.
    ghost unread: { Self → Option (List ℕ) };

    /// Whether a name is started.
    ghost started: { Self → Bool };

    /// The name of the last start that was not refused for memory, or none.
    ghost current: { Self → Option (List ℕ) };

    /// Whether the last call that was not refused for memory failed.
    ghost ailing: { Self → Bool };

    /// A count that never falls, and rises with each call that fails, up to 2^64 - 1.
    ghost faults: { Self → ℕ };

    /// Copies a name and starts its text, from the first byte. A name that is not there fails.
    ///
    /// After `Failed` nothing is started. After `OutOfMemory` the shelf is as it was.
    fn start(&mut self, name: &str) -> Result<(), StartStop>
        ensures told { TellsTheSame (told self.old) (told self.new) }
        ensures ok { OnOk result
            (IsTrue (started self.new) × (unread self.new ≡ told self.old name.now)) }
        ensures failed { IsErrOf result StartStop.Failed → started self.new ≡ false }
        ensures memory { IsErrOf result StartStop.OutOfMemory → self.new ≡ self.old }
        ensures current { result ≢ Err StartStop.OutOfMemory →
            current self.new ≡ Some name.now }
        ensures ailing { result ≢ Err StartStop.OutOfMemory →
            (IsTrue (ailing self.new) ↔ IsErrOf result StartStop.Failed) }
        ensures cause { HasCause (faults self.old) (faults self.new) (IsErrOf result StartStop.Failed) };

    /// Fills the front of the piece with the next bytes of the started text, and says how many
    /// they are. 0 is its end.
    ///
    /// After `Failed` the shelf says no more of what is started and left.
    fn read(&mut self, piece: &mut [u8]) -> Result<usize, Failed>
        requires started { IsTrue (started self.old) }
        requires room { 0 < length piece.old }
        ensures told { TellsTheSame (told self.old) (told self.new) }
        ensures bound { IfOk result (λ k. k ≤ length piece.new) }
        ensures bytes { IfOk result (λ k. ReadTakes (unread self.old) (unread self.new) k piece.new) }
        ensures started { OnOk result (IsTrue (started self.new)) }
        ensures current { current self.new ≡ current self.old }
        ensures cause { HasCause (faults self.old) (faults self.new) (IsErr result) }
        ensures ailing { IsTrue (ailing self.new) ↔ IsErr result };
}
