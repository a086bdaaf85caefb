//! What carries out each command.
ghost use Rattle.std.specs.Prelude.{◌≡◌, [], length};
ghost use Rattle.command_words.specs.Requests.{asked};
ghost use Rattle.command_words.specs.Shapes.{inputs_of};
ghost use Rattle.workbench.specs.Endings.{shelved};
ghost use Rattle.workbench.specs.Performing.{Performs};

mod check;
mod deficiency_command;
mod edits;
mod extend;
mod mus;
mod reduce;
mod reduce_general;
mod report;
mod solve;
mod verify;

use command_endings::demo;
use command_stops::Stop;
use command_words::{Command, Request};
use lk_outside::{Gate, Shelf};
use status_lines::Ending;
use std::alloc::Global;
use std::thread::Threads;

/// Does what is asked for.
pub(crate) fn perform<R: Threads + Sync, H: Shelf, G: Gate>(
    rt: &R,
    alloc: Global,
    gate: &G,
    shelf: &mut H,
    request: &Request<'_>,
) -> Result<Ending, Stop>
    requires names { length request.now.names.now ≡ length (inputs_of request.now.command) }
    ensures performs { Performs (asked request.now)
        (shelved (H.told shelf.old) (H.faults shelf.old) (H.faults shelf.new) (H.ailing shelf.new)
        (H.current shelf.new))
        result }
    ensures untouched { inputs_of request.now.command ≡ [] → shelf.new ≡ shelf.old }
{
    let names = request.names;
    let options = &request.options;
    match request.command {
        Command::ReducePure => reduce::perform_pure(alloc, shelf, names, options),
        Command::ReduceMatching => {
            reduce::perform_matching(rt, alloc, gate, shelf, names, options)
        }
        Command::ReduceLinear => reduce::perform_linear(alloc, shelf, names, options),
        Command::ReduceGeneral => {
            reduce_general::perform(rt, alloc, gate, shelf, names, options)
        }
        Command::Check => check::perform(rt, alloc, gate, shelf, names, options),
        Command::Extend => extend::perform(alloc, shelf, names, options),
        Command::Report => report::perform(alloc, shelf, names, options),
        Command::Demo => Ok(demo::answer(rt, alloc, gate, options.number)?),
        Command::Solve => solve::perform(rt, alloc, gate, shelf, names, options),
        Command::Verify => verify::perform(alloc, shelf, names, options),
        Command::Deficiency => deficiency_command::perform(alloc, shelf, names, options),
        Command::Edits => edits::perform(alloc, shelf, names, options),
        Command::Mus => mus::perform(alloc, shelf, names, options),
    }
}
