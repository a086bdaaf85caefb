//! How `check` ends.
ghost use Rattle.std.specs.Prelude.{IfOk, IsTrue};
ghost use Rattle.lk_model.specs.Documents.Form.{is_in_form};
ghost use Rattle.command_words.specs.OptionRows.{values_of};
ghost use Rattle.command_endings.specs.Answering.{IsAnswer};

use command_inputs::Checked;
use command_words::{Command, Options};
use lean_checker::check;
use lk_model::OutOfMemory;
use lk_outside::Gate;
use status_lines::{Ending, ending_of_verdict};
use std::alloc::Global;
use std::thread::Threads;

/// What the checks say of a formula and a document.
pub fn answer<R: Threads + Sync, G: Gate>(
    rt: &R,
    alloc: Global,
    gate: &G,
    read: &Checked,
    options: &Options<'_>,
) -> Result<Ending, OutOfMemory>
    requires form { IsTrue (is_in_form read.now.document) }
    ensures { IfOk result (IsAnswer Command.Check (values_of options.now) (read.now.formula, (read.now.document, tt))) }
{
    let verdict = check(
        rt,
        alloc,
        gate,
        &read.formula,
        &read.document,
        options.workers.get(),
    )?;
    ending_of_verdict(alloc, verdict)
}
