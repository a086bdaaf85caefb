//! The lines that the program says.
ghost use Rattle.std.specs.Prelude.{◌≡◌, ◌++◌, decimal, IfOk, OnOk};
ghost use Rattle.status_lines.specs.RunLines.{budget_line, conflicts_line, op_word, operands, too_large_line};
ghost use Rattle.status_lines.specs.RunLines.{too_wide_line};
ghost use Rattle.status_lines.specs.StopLines.{line_of, formula_line, refusal_line, edits_line};
ghost use Rattle.edit_text.specs.EditText.{fault_text};

use command_stops::Stop;
use dimacs_reader::Refused;
use edit_text::EditFault;
use lk_model::{Op, OutOfMemory, Wide};
use lk_text::put_i128;
use std::alloc::Global;

/// The line that reports a stop.
pub(crate) fn line_of(alloc: Global, stop: Stop) -> Result<Vec<u8>, OutOfMemory>
    ensures { IfOk result (λ line. line.items ≡ line_of stop) }
{
    match stop {
        Stop::Words(number) => numbered(alloc, b"leank: word ", number as u64, b" refused\n"),
        Stop::Formula(refused) => refusal_line(alloc, refused),
        Stop::Document(line) => numbered(
            alloc,
            b"leank: document line ",
            line,
            b": not a document\n",
        ),
        Stop::Model(line) => { numbered(alloc, b"leank: model line ", line, b": not a model\n") }
        Stop::Answer(line) => numbered(alloc, b"leank: answer line ", line, b": not an answer\n"),
        Stop::Edits { line, fault } => edits_line(alloc, line, fault),
        Stop::Read => Ok(Vec::from_slice(alloc, b"leank: read fault\n")?),
        Stop::Memory => Ok(Vec::from_slice(alloc, b"leank: out of memory\n")?),
    }
}

/// The line that reports a refused formula.
fn refusal_line(alloc: Global, refused: Refused) -> Result<Vec<u8>, OutOfMemory>
    ensures { IfOk result (λ line. line.items ≡ refusal_line refused) }
{
    match refused {
        Refused::NoHeader { line } => formula_line(alloc, line, b": no header\n"),
        Refused::BadHeader { line } => formula_line(alloc, line, b": bad header\n"),
        Refused::SecondHeader { line } => formula_line(alloc, line, b": second header\n"),
        Refused::BadToken { line } => formula_line(alloc, line, b": bad token\n"),
        Refused::BeyondStated { line } => {
            formula_line(alloc, line, b": variable beyond header\n")
        }
        Refused::TooManyClauses { line } => formula_line(alloc, line, b": too many clauses\n"),
        Refused::TooFewClauses { line } => formula_line(alloc, line, b": too few clauses\n"),
        Refused::Limit { line } => formula_line(alloc, line, b": past a limit\n"),
        Refused::TooLong { line } => formula_line(alloc, line, b": too long\n"),
        Refused::OutOfMemory => Ok(Vec::from_slice(alloc, b"leank: out of memory\n")?),
    }
}

/// The line that reports a fault at a line of the formula.
fn formula_line(alloc: Global, line: u64, text: &[u8]) -> Result<Vec<u8>, OutOfMemory>
    ensures { IfOk result (λ told. told.items ≡ formula_line line text.now) }
{
    numbered(alloc, b"leank: formula line ", line, text)
}

/// The line that reports a fault at a line of edits.
fn edits_line(alloc: Global, line: u64, fault: EditFault) -> Result<Vec<u8>, OutOfMemory>
    ensures { IfOk result (λ told. told.items ≡ edits_line line fault) }
{
    numbered(
        alloc,
        b"leank: edits line ",
        line,
        fault_text(fault).as_bytes(),
    )
}

/// What is said of a fault after the number of its line.
fn fault_text(fault: EditFault) -> &'static str
    ensures { result.now ≡ fault_text fault }
{
    match fault {
        EditFault::NotAnEdit => ": not an edit\n",
        EditFault::NoSuchClause => ": no such clause\n",
        EditFault::PastLimit => ": past a limit\n",
    }
}

/// The line that says that the rows of a linear run are too large, for these numbers of variables and clauses.
pub(crate) fn too_large_line(alloc: Global, vars: u32, clauses: u32) -> Result<Vec<u8>, OutOfMemory>
    ensures { IfOk result (λ line. line.items ≡ too_large_line vars clauses) }
{
    let before = b"leank: too large: ";
    let mut line = numbered(alloc, before, u64::from(vars), b" variables, ")?;
    put_i128(&mut line, i128::from(clauses))?;
    line.extend_from_slice(b" clauses\n")?;
    Ok(line)
}

/// The line that says that a linear run wants a pivot more than these.
pub(crate) fn budget_line(alloc: Global, pivots: u64) -> Result<Vec<u8>, OutOfMemory>
    ensures { IfOk result (λ line. line.items ≡ budget_line pivots) }
{
    numbered(alloc, b"leank: budget of ", pivots, b" pivots used\n")
}

/// The line that says that this many clauses were learned, and no more may be.
pub fn conflicts_line(alloc: Global, conflicts: u64) -> Result<Vec<u8>, OutOfMemory>
    ensures { IfOk result (λ line. line.items ≡ conflicts_line conflicts) }
{
    numbered(alloc, b"leank: budget of ", conflicts, b" conflicts used\n")
}

/// The line that says that a result of a linear run is too wide, after `pivots` pivots.
pub(crate) fn too_wide_line(alloc: Global, pivots: u64, wide: Wide) -> Result<Vec<u8>, OutOfMemory>
    ensures { IfOk result (λ line. line.items ≡ too_wide_line pivots wide) }
{
    let mut line = numbered(alloc, b"leank: too wide after ", pivots, b" pivots: ")?;
    put_operands(&mut line, wide)?;
    line.push(b'\n')?;
    Ok(line)
}

/// Appends an operation and its operands.
fn put_operands(line: &mut Vec<u8>, wide: Wide) -> Result<(), OutOfMemory>
    ensures { OnOk result (line.new.items ≡ line.old.items ++ operands wide) }
{
    line.extend_from_slice(op_word(wide.op).as_bytes())?;
    line.extend_from_slice(b" of ")?;
    put_i128(line, wide.left)?;
    line.extend_from_slice(b" and ")?;
    put_i128(line, wide.right)
}

/// The word of an operation.
fn op_word(op: Op) -> &'static str
    ensures { result.now ≡ op_word op }
{
    match op {
        Op::Product => "product",
        Op::Sum => "sum",
        Op::Difference => "difference",
    }
}

/// A number between two texts.
fn numbered(alloc: Global, before: &[u8], number: u64, after: &[u8]) -> Result<Vec<u8>, OutOfMemory>
    ensures { IfOk result (λ line. line.items ≡ before.now ++ decimal number ++ after.now) }
{
    let mut line = Vec::from_slice(alloc, before)?;
    put_i128(&mut line, i128::from(number))?;
    line.extend_from_slice(after)?;
    Ok(line)
}
