//! The command `check`.
ghost use Rattle.std.specs.Prelude.{◌≡◌, length, map};
ghost use Rattle.command_words.specs.Requests.{request_for};
ghost use Rattle.command_words.specs.Shapes.{inputs_of};
ghost use Rattle.workbench.specs.Endings.{shelved};
ghost use Rattle.workbench.specs.Performing.{Performs};

use command_endings::check::answer;
use command_inputs::read_checked;
use command_stops::Stop;
use command_words::{Command, Options};
use lk_outside::{Gate, Shelf};
use status_lines::Ending;
use std::alloc::Global;
use std::thread::Threads;

/// Writes what the checks say of the document under the second name and the formula under the first.
pub(crate) fn perform<R: Threads + Sync, H: Shelf, G: Gate>(
    rt: &R,
    alloc: Global,
    gate: &G,
    shelf: &mut H,
    names: &[&str],
    options: &Options<'_>,
) -> Result<Ending, Stop>
    requires names { length names.now ≡ length (inputs_of Command.Check) }
    ensures { Performs (request_for Command.Check (map (λ w. w.now) names.now) options.now)
        (shelved (H.told shelf.old) (H.faults shelf.old) (H.faults shelf.new) (H.ailing shelf.new)
        (H.current shelf.new))
        result }
{
    let read = read_checked(alloc, shelf, names[0], names[1])?;
    let ending = answer(rt, alloc, gate, &read, options);
    // A drop by a call is proved once. Each exit would spell it out.
    drop(read);
    Ok(ending?)
}
