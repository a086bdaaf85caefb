//! How `report` ends.
ghost use Rattle.std.specs.Prelude.{◌≡◌, IfOk};
ghost use Rattle.lk_model.specs.Formulas.Formula.{occurring_count};
ghost use Rattle.lk_model.specs.declared.class.Class.TheVariants.{Pure, Matching};
ghost use Rattle.command_words.specs.OptionRows.{values_of};
ghost use Rattle.command_endings.specs.Answering.{IsAnswer};
ghost use Rattle.command_endings.specs.Commands.Report.{IsKernelSize, WritesReport};

use crate::counts::counts_of;
use crate::rows::{Row, text_of};
use command_words::{Command, Options};
use lk_model::{Formula, OutOfMemory};
use matching_kernel::matching_kernel;
use pure_strip::pure_kernel;
use status_lines::{Ending, Status};
use std::alloc::Global;

/// The numbers of a formula.
pub fn answer(alloc: Global, f: &Formula, options: &Options<'_>) -> Result<Ending, OutOfMemory>
    ensures { IfOk result (IsAnswer Command.Report (values_of options.now) (f.now, tt)) }
{
    Ok(Ending {
        status: Status::Done,
        written: report_of(alloc, f)?,
        said: Vec::new(alloc),
    })
}

/// The text of the numbers of a formula.
fn report_of(alloc: Global, f: &Formula) -> Result<Vec<u8>, OutOfMemory>
    ensures { IfOk result (λ text. WritesReport f.now text.items) }
{
    let occurring = occurring_count(alloc, f)?;
    let counts = counts_of(alloc, f)?;
    let pure = pure_size(alloc, f)?;
    let matching = matching_size(alloc, f)?;
    text_of(
        alloc,
        &[
            Row {
                word: "variables",
                number: u64::from(f.vars()),
            },
            Row {
                word: "occurring",
                number: occurring,
            },
            Row {
                word: "clauses",
                number: u64::from(f.len()),
            },
            Row {
                word: "literals",
                number: counts.literals,
            },
            Row {
                word: "empty",
                number: counts.empty,
            },
            Row {
                word: "units",
                number: counts.units,
            },
            Row {
                word: "tautologies",
                number: counts.tautologies,
            },
            Row {
                word: "pure",
                number: pure,
            },
            Row {
                word: "matching",
                number: matching,
            },
        ],
    )
}

/// How many variables occur in a formula.
fn occurring_count(alloc: Global, f: &Formula) -> Result<u64, OutOfMemory>
    ensures { IfOk result (λ count. count ≡ occurring_count f.now) }
{
    let all = f.positions(alloc)?;
    let occurring = f.occurring(alloc, all.as_slice())?;
    Ok(occurring.len() as u64)
}

/// The size of the pure kernel of a formula.
fn pure_size(alloc: Global, f: &Formula) -> Result<u64, OutOfMemory>
    ensures { IfOk result (IsKernelSize Pure f.now) }
{
    let found = pure_kernel(alloc, f)?;
    Ok(found.kept.len() as u64)
}

/// The size of the matching kernel of a formula.
fn matching_size(alloc: Global, f: &Formula) -> Result<u64, OutOfMemory>
    ensures { IfOk result (IsKernelSize Matching f.now) }
{
    let all = f.positions(alloc)?;
    let found = matching_kernel(alloc, f, all.as_slice())?;
    Ok(found.kept.len() as u64)
}
