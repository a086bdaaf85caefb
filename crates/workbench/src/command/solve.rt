//! The command `solve`.
ghost use Rattle.std.specs.Prelude.{◌≡◌, length, map};
ghost use Rattle.command_words.specs.Requests.{request_for};
ghost use Rattle.command_words.specs.Shapes.{inputs_of};
ghost use Rattle.workbench.specs.Endings.{shelved};
ghost use Rattle.workbench.specs.Performing.{Performs};

use command_endings::solve::answer;
use command_inputs::read_formula;
use command_stops::Stop;
use command_words::{Command, Options};
use lk_outside::{Gate, Shelf};
use status_lines::Ending;
use std::alloc::Global;
use std::thread::Threads;

/// Writes a model of the formula under a name, or a refutation, or the unfinished document of a search that used up
/// its budget.
pub(crate) fn perform<R: Threads + Sync, H: Shelf, G: Gate>(
    rt: &R,
    alloc: Global,
    gate: &G,
    shelf: &mut H,
    names: &[&str],
    options: &Options<'_>,
) -> Result<Ending, Stop>
    requires names { length names.now ≡ length (inputs_of Command.Solve) }
    ensures { Performs (request_for Command.Solve (map (λ w. w.now) names.now) options.now)
        (shelved (H.told shelf.old) (H.faults shelf.old) (H.faults shelf.new) (H.ailing shelf.new)
        (H.current shelf.new))
        result }
{
    let formula = read_formula(alloc, shelf, names[0])?;
    Ok(answer(rt, alloc, gate, formula, options)?)
}
