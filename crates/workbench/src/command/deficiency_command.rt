//! The command `deficiency`.
ghost use Rattle.std.specs.Prelude.{◌≡◌, length, map};
ghost use Rattle.command_words.specs.Requests.{request_for};
ghost use Rattle.command_words.specs.Shapes.{inputs_of};
ghost use Rattle.workbench.specs.Endings.{shelved};
ghost use Rattle.workbench.specs.Performing.{Performs};

use command_endings::deficiency_command::answer;
use command_inputs::read_formula;
use command_stops::Stop;
use command_words::{Command, Options};
use lk_outside::Shelf;
use status_lines::Ending;
use std::alloc::Global;

/// Writes the maximal deficiency of the formula under a name.
pub(crate) fn perform<H: Shelf>(
    alloc: Global,
    shelf: &mut H,
    names: &[&str],
    options: &Options<'_>,
) -> Result<Ending, Stop>
    requires names { length names.now ≡ length (inputs_of Command.Deficiency) }
    ensures { Performs (request_for Command.Deficiency (map (λ w. w.now) names.now) options.now)
        (shelved (H.told shelf.old) (H.faults shelf.old) (H.faults shelf.new) (H.ailing shelf.new)
        (H.current shelf.new))
        result }
{
    let formula = read_formula(alloc, shelf, names[0])?;
    Ok(answer(alloc, &formula, options)?)
}
