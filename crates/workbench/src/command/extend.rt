//! The command `extend`.
ghost use Rattle.std.specs.Prelude.{◌≡◌, length, map};
ghost use Rattle.command_words.specs.Requests.{request_for};
ghost use Rattle.command_words.specs.Shapes.{inputs_of};
ghost use Rattle.workbench.specs.Endings.{shelved};
ghost use Rattle.workbench.specs.Performing.{Performs};

use command_endings::extend::answer;
use command_inputs::{read_checked, read_values};
use command_stops::Stop;
use command_words::{Command, Options};
use lk_outside::Shelf;
use status_lines::Ending;
use std::alloc::Global;

/// Writes the model under the third name, extended by the document under the second to the formula under
/// the first.
pub(crate) fn perform<H: Shelf>(
    alloc: Global,
    shelf: &mut H,
    names: &[&str],
    options: &Options<'_>,
) -> Result<Ending, Stop>
    requires names { length names.now ≡ length (inputs_of Command.Extend) }
    ensures { Performs (request_for Command.Extend (map (λ w. w.now) names.now) options.now)
        (shelved (H.told shelf.old) (H.faults shelf.old) (H.faults shelf.new) (H.ailing shelf.new)
        (H.current shelf.new))
        result }
{
    let read = read_checked(alloc, shelf, names[0], names[1])?;
    // What was read is dropped by a call, which is proved once. Each exit would spell it out.
    match read_values(alloc, shelf, names[2], &read.formula) {
        Ok(model) => {
            let ending = answer(alloc, &read.formula, &read.document, &model);
            drop(read);
            Ok(ending?)
        }
        Err(stop) => {
            drop(read);
            Err(stop)
        }
    }
}
