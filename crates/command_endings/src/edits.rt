//! How `edits` ends.
//!
//! The matching of the live clauses stays maximum from edit to edit by at most one counted search for each, so that what
//! an edit costs besides the kernel that is written is this search. The counter shows the searches that were made with it;
//! its ledger is unknown to the functions that search.
ghost use Rattle.std.specs.Prelude.{◌≡◌, ◌+◌, ◌≤◌, None, length, IfOk, OnOk, IsTrue};
ghost use Rattle.edit_text.specs.LiveClauses.{live_of};
ghost use Rattle.edit_text.specs.Edits.{CanBeMade, after, edit_fault, is_edit_over, states};
ghost use Rattle.command_words.specs.OptionRows.{values_of};
ghost use Rattle.command_endings.specs.Answering.{IsAnswer};
ghost use Rattle.command_endings.specs.Commands.Edits.{WritesKernels, WritesKernel};

use crate::numbers::put_closed;
use bipartite_match::Steps;
use command_inputs::Edited;
use command_words::{Command, Options};
use edit_text::Edit;
use lk_model::OutOfMemory;
use match_edits::{EditStop, Live};
use status_lines::{Ending, Status};
use std::alloc::Global;

/// The matching kernel of a formula, and that of what is live after each of its edits.
pub fn answer(alloc: Global, read: &Edited, options: &Options<'_>) -> Result<Ending, OutOfMemory>
    requires made { CanBeMade (live_of read.now.formula) read.now.edits }
    ensures { IfOk result (IsAnswer Command.Edits (values_of options.now) (read.now.formula, (read.now.edits, tt))) }
{
    let mut live = Live::of(alloc, &read.formula)?;
    let mut steps = Steps::new(());
    let written = text_of(alloc, &mut live, read.edits.as_slice(), &mut steps);
    // A drop by a call is proved once. Each exit would spell it out.
    drop(live);
    Ok(Ending {
        status: Status::Done,
        written: written?,
        said: Vec::new(alloc),
    })
}

/// The lines of the matching kernels of what is live: as it stands, and after each of these edits. For each edit at
/// most one search is counted.
fn text_of<L>(
    alloc: Global,
    live: &mut Live,
    edits: &[Edit],
    steps: &mut Steps<L>,
) -> Result<Vec<u8>, OutOfMemory>
    requires made { CanBeMade live.old edits.now }
    ensures kernels { IfOk result (λ text. WritesKernels (states live.old edits.now) text.items) }
    ensures searches { steps.new ≤ steps.old + length edits.now }
{
    let mut text = Vec::new(alloc);
    put_kernel(alloc, &mut text, live)?;
    for edit in edits {
        make(alloc, live, edit, steps)?;
        put_kernel(alloc, &mut text, live)?;
    }
    Ok(text)
}

/// Makes an edit that can be made, with at most one counted search.
fn make<L>(
    alloc: Global,
    live: &mut Live,
    edit: &Edit,
    steps: &mut Steps<L>,
) -> Result<(), OutOfMemory>
    requires over { IsTrue (is_edit_over live.old.held.vars edit.now) }
    requires made { edit_fault live.old edit.now ≡ None }
    ensures ok { OnOk result (live.new ≡ after live.old edit.now) }
    ensures search { steps.new ≤ steps.old + 1 }
{
    match edit {
        Edit::Add(clause) => match live.add(alloc, clause.as_slice(), steps) {
            Ok(_) => Ok(()),
            Err(stop) => Err(memory_of(stop)),
        },
        Edit::Remove(number) => match live.remove(alloc, *number, steps) {
            Ok(()) => Ok(()),
            Err(stop) => Err(memory_of(stop)),
        },
    }
}

/// The one error of an edit that can be made.
fn memory_of(_stop: EditStop) -> OutOfMemory
    requires memory { _stop ≡ EditStop.OutOfMemory }
{
    OutOfMemory
}

/// Appends the line of the matching kernel of what is live.
fn put_kernel(alloc: Global, text: &mut Vec<u8>, live: &mut Live) -> Result<(), OutOfMemory>
    ensures written { OnOk result (WritesKernel live.old text.old.items text.new.items) }
    ensures same { live.new ≡ live.old }
{
    let kept = live.kernel_by_marks(alloc)?;
    put_closed(text, b"keep", kept.as_slice())
}
