//! The command `reduce general`.
ghost use Rattle.std.specs.Prelude.{◌≡◌, length, map};
ghost use Rattle.command_words.specs.Requests.{request_for};
ghost use Rattle.command_words.specs.Shapes.{inputs_of};
ghost use Rattle.workbench.specs.Endings.{shelved};
ghost use Rattle.workbench.specs.Performing.{Performs};

use command_endings::reduce_general::answer;
use command_inputs::read_formula;
use command_stops::Stop;
use command_words::{Command, Options};
use lk_outside::{Gate, Shelf};
use status_lines::Ending;
use std::alloc::Global;
use std::thread::Threads;

/// Writes the document of the general kernel of the formula under a name, or the unfinished one of the first
/// part that is not finished.
pub(crate) fn perform<R: Threads + Sync, H: Shelf, G: Gate>(
    rt: &R,
    alloc: Global,
    gate: &G,
    shelf: &mut H,
    names: &[&str],
    options: &Options<'_>,
) -> Result<Ending, Stop>
    requires names { length names.now ≡ length (inputs_of Command.ReduceGeneral) }
    ensures { Performs (request_for Command.ReduceGeneral (map (λ w. w.now) names.now) options.now)
        (shelved (H.told shelf.old) (H.faults shelf.old) (H.faults shelf.new) (H.ailing shelf.new)
        (H.current shelf.new))
        result }
{
    let formula = read_formula(alloc, shelf, names[0])?;
    Ok(answer(rt, alloc, gate, formula, options)?)
}
