//! The bytes of an input, taken from the shelf piece by piece.
ghost use Rattle.std.specs.Prelude.{◌≡◌, ◌≢◌, OnOk, Some, ◌<◌, ◌≤◌, length, IfOk, IfErr, IsTrue, IsErrAnd};
ghost use Rattle.lk_outside.specs.Reads.{ReadTakes};
ghost use Rattle.lk_outside.specs.Causes.{HasCause, TellsTheSame};
ghost use Rattle.command_stops.specs.Stops.{StopsText, IsFailure};

use crate::stop::Stop;
use lk_outside::Shelf;

/// Starts a text.
pub fn start_text<H: Shelf>(shelf: &mut H, name: &str) -> Result<(), Stop>
    ensures told { TellsTheSame (H.told shelf.old) (H.told shelf.new) }
    ensures started { OnOk result (IsTrue (H.started shelf.new)) }
    ensures unread { OnOk result (H.unread shelf.new ≡ H.told shelf.old name.now) }
    ensures stop { IfErr result (StopsText (H.ailing shelf.new)) }
    ensures current { result ≢ Err Stop.Memory → H.current shelf.new ≡ Some name.now }
    ensures cause { HasCause (H.faults shelf.old) (H.faults shelf.new) (IsErrAnd result (λ s. s ≡ Stop.Read)) }
    ensures well { IsTrue (H.ailing shelf.new) → IsErrAnd result IsFailure }
{
    shelf.start(name).map_err(|e| Stop::from(e))
}

/// Reads the next bytes of the started text, and returns how many they are: 0 at its end.
pub fn read_piece<H: Shelf>(shelf: &mut H, piece: &mut [u8]) -> Result<usize, Stop>
    requires started { IsTrue (H.started shelf.old) }
    requires room { 0 < length piece.old }
    ensures told { TellsTheSame (H.told shelf.old) (H.told shelf.new) }
    ensures bound { IfOk result (λ count. count ≤ length piece.new) }
    ensures bytes { IfOk result (λ count. ReadTakes (H.unread shelf.old) (H.unread shelf.new) count piece.new) }
    ensures started { OnOk result (IsTrue (H.started shelf.new)) }
    ensures stop { IfErr result (λ s. (s ≡ Stop.Read) × IsTrue (H.ailing shelf.new)) }
    ensures current { H.current shelf.new ≡ H.current shelf.old }
    ensures cause { HasCause (H.faults shelf.old) (H.faults shelf.new) (IsErrAnd result (λ s. s ≡ Stop.Read)) }
    ensures well { IsTrue (H.ailing shelf.new) → IsErrAnd result IsFailure }
{
    Ok(shelf.read(piece)?)
}
