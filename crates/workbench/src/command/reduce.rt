//! The commands `reduce`, but for the class general.
ghost use Rattle.std.specs.Prelude.{◌≡◌, length, map};
ghost use Rattle.command_words.specs.Requests.{request_for};
ghost use Rattle.command_words.specs.Shapes.{inputs_of};
ghost use Rattle.workbench.specs.Endings.{shelved};
ghost use Rattle.workbench.specs.Performing.{Performs};

use command_endings::reduce::{answer_linear, answer_matching, answer_pure};
use command_inputs::read_formula;
use command_stops::Stop;
use command_words::{Command, Options};
use lk_outside::{Gate, Shelf};
use status_lines::Ending;
use std::alloc::Global;
use std::thread::Threads;

/// Writes the document of the pure kernel of the formula under a name.
pub(crate) fn perform_pure<H: Shelf>(
    alloc: Global,
    shelf: &mut H,
    names: &[&str],
    options: &Options<'_>,
) -> Result<Ending, Stop>
    requires names { length names.now ≡ length (inputs_of Command.ReducePure) }
    ensures { Performs (request_for Command.ReducePure (map (λ w. w.now) names.now) options.now)
        (shelved (H.told shelf.old) (H.faults shelf.old) (H.faults shelf.new) (H.ailing shelf.new)
        (H.current shelf.new))
        result }
{
    let formula = read_formula(alloc, shelf, names[0])?;
    Ok(answer_pure(alloc, formula, options)?)
}

/// Writes the document of the matching kernel of the formula under a name.
pub(crate) fn perform_matching<R: Threads + Sync, H: Shelf, G: Gate>(
    rt: &R,
    alloc: Global,
    gate: &G,
    shelf: &mut H,
    names: &[&str],
    options: &Options<'_>,
) -> Result<Ending, Stop>
    requires names { length names.now ≡ length (inputs_of Command.ReduceMatching) }
    ensures { Performs (request_for Command.ReduceMatching (map (λ w. w.now) names.now) options.now)
        (shelved (H.told shelf.old) (H.faults shelf.old) (H.faults shelf.new) (H.ailing shelf.new)
        (H.current shelf.new))
        result }
{
    let formula = read_formula(alloc, shelf, names[0])?;
    Ok(answer_matching(rt, alloc, gate, formula, options)?)
}

/// Writes the document of the linear kernel of the formula under a name, or says why there is none: the rows
/// would be too large, a number is too wide, or the pivots are used up.
pub(crate) fn perform_linear<H: Shelf>(
    alloc: Global,
    shelf: &mut H,
    names: &[&str],
    options: &Options<'_>,
) -> Result<Ending, Stop>
    requires names { length names.now ≡ length (inputs_of Command.ReduceLinear) }
    ensures { Performs (request_for Command.ReduceLinear (map (λ w. w.now) names.now) options.now)
        (shelved (H.told shelf.old) (H.faults shelf.old) (H.faults shelf.new) (H.ailing shelf.new)
        (H.current shelf.new))
        result }
{
    let formula = read_formula(alloc, shelf, names[0])?;
    Ok(answer_linear(alloc, formula, options)?)
}
