//! One line more of the text of a core.
ghost use Rattle.std.specs.Prelude.{◌≡◌, ◌≤◌, ◌<◌, IfOk, length};
ghost use Rattle.lk_model.specs.Limits.{max_vars, max_clauses};
ghost use Rattle.line_text.specs.Fields.{fields};
ghost use Rattle.line_text.specs.Taking.{IsTaken};
ghost use Rattle.formula_text.specs.FormulaLines.{IsReady};
ghost use Rattle.answer_text.specs.CoreDrafts.{is_format, next_format, next_sizes, next_positions, next_step};
ghost use Rattle.answer_text.specs.CoreDrafts.{without_within, next_without, next_problem, next_witness, next_text};
ghost use Rattle.answer_text.specs.CoreDrafts.{next_draft, IsReadyDraft};

use crate::core_draft::{CoreDraft, LineDue};
use formula_text::{has_sizes, is_problem, take_clause};
use line_text::{behind, first_field, literals_in, number_in, numbers_in};
use lk_model::{OutOfMemory, Without};
use round_text::take_rounds;
use std::alloc::Global;

/// Takes the line that is to come next. Returns whether the line was taken; the draft is not used again
/// otherwise. Fails only if memory runs out.
pub(crate) fn take_core(
    alloc: Global,
    draft: &mut CoreDraft,
    line: &[u8],
) -> Result<bool, OutOfMemory>
    requires { IsReadyDraft draft.old }
    ensures { IfOk result (λ taken. IsTaken (next_draft draft.old (fields line.now)) taken draft.new) }
{
    match draft.due {
        LineDue::Format => Ok(take_format(draft, line)),
        LineDue::Sizes => Ok(take_sizes(draft, line)),
        LineDue::Positions => take_positions(alloc, draft, line),
        LineDue::Steps => take_step(alloc, draft, line),
        LineDue::Witnesses => take_witness(alloc, draft, line),
        LineDue::Clauses => take_text(draft, line),
    }
}

/// Takes the line of the format.
fn take_format(draft: &mut CoreDraft, line: &[u8]) -> bool
    ensures { IsTaken (next_format draft.old (fields line.now)) result draft.new }
{
    let is = is_format(line);
    if is {
        draft.due = LineDue::Sizes;
    }
    is
}

/// Whether the line is that of the format.
fn is_format(line: &[u8]) -> bool
    ensures { result ≡ is_format (fields line.now) }
{
    match behind(line, b"c", b"leank") {
        Some(rest) => rest == b"1 mus".as_slice(),
        None => false,
    }
}

/// Takes the line of the sizes.
fn take_sizes(draft: &mut CoreDraft, line: &[u8]) -> bool
    ensures { IsTaken (next_sizes draft.old (fields line.now)) result draft.new }
{
    let is = has_sizes(line, b"c", b"formula", draft.vars, draft.clauses as usize);
    if is {
        draft.due = LineDue::Positions;
    }
    is
}

/// Takes the line of the positions.
fn take_positions(alloc: Global, draft: &mut CoreDraft, line: &[u8]) -> Result<bool, OutOfMemory>
    requires { draft.old.clauses ≤ max_clauses }
    ensures { IfOk result (λ taken. IsTaken (next_positions draft.old (fields line.now)) taken draft.new) }
{
    let Some(rest) = behind(line, b"c", b"core") else {
        return Ok(false);
    };
    let Some(core) = numbers_in(alloc, rest, draft.clauses)? else {
        return Ok(false);
    };
    draft.due = LineDue::Steps;
    draft.core = core;
    Ok(true)
}

/// Takes the line of the round, or of a step. After the round's last step come the literals for the positions.
fn take_step(alloc: Global, draft: &mut CoreDraft, line: &[u8]) -> Result<bool, OutOfMemory>
    requires { draft.old.vars ≤ max_vars }
    ensures { IfOk result (λ taken. IsTaken (next_step draft.old (fields line.now)) taken draft.new) }
{
    if !take_rounds(
        alloc,
        &mut draft.rounds,
        line,
        draft.vars,
        draft.clauses,
        true,
    )? {
        return Ok(false);
    }
    draft.due = if draft.rounds.is_open {
        LineDue::Steps
    } else {
        LineDue::Witnesses
    };
    Ok(true)
}

/// Takes the line of the literals for the first position without one, or the problem line after the last.
fn take_witness(alloc: Global, draft: &mut CoreDraft, line: &[u8]) -> Result<bool, OutOfMemory>
    requires { draft.old.vars ≤ max_vars }
    ensures { IfOk result (λ taken. IsTaken (next_witness draft.old (fields line.now)) taken draft.new) }
{
    if draft.without.len() < draft.core.len() {
        take_without(alloc, draft, line)
    } else {
        Ok(take_problem(draft, line))
    }
}

/// Takes the line of the literals for the first position without one.
fn take_without(alloc: Global, draft: &mut CoreDraft, line: &[u8]) -> Result<bool, OutOfMemory>
    requires small { draft.old.vars ≤ max_vars }
    requires due { length draft.old.without < length draft.old.core }
    ensures { IfOk result (λ taken. IsTaken (next_without draft.old (fields line.now)) taken draft.new) }
{
    let Some(rest) = behind(line, b"c", b"without") else {
        return Ok(false);
    };
    let position = draft.core.as_slice()[draft.without.len()];
    let Some(without) = without_in(alloc, rest, draft.vars, position)? else {
        return Ok(false);
    };
    draft.without.push(without)?;
    Ok(true)
}

/// The literals of a line for this position, over the variables from 1 to n, ascending.
fn without_in(
    alloc: Global,
    line: &[u8],
    n: u32,
    position: u32,
) -> Result<Option<Without>, OutOfMemory>
    requires { n ≤ max_vars }
    ensures { IfOk result (λ without. without ≡ without_within n position (fields line.now)) }
{
    let (word, Some(rest)) = first_field(line) else {
        return Ok(None);
    };
    if number_in(word, position, position).is_none() {
        return Ok(None);
    }
    match literals_in(alloc, rest, n, true)? {
        Some(lits) => Ok(Some(Without {
            pos: position,
            lits,
        })),
        None => Ok(None),
    }
}

/// Takes the problem line.
fn take_problem(draft: &mut CoreDraft, line: &[u8]) -> bool
    ensures { IsTaken (next_problem draft.old (fields line.now)) result draft.new }
{
    let is = is_problem(line, draft.vars, draft.core.len());
    if is {
        draft.due = LineDue::Clauses;
    }
    is
}

/// Takes the line of a clause.
fn take_text(draft: &mut CoreDraft, line: &[u8]) -> Result<bool, OutOfMemory>
    requires core { length draft.old.core ≤ max_clauses }
    requires growing { IsReady draft.old.texts.vars draft.old.growing }
    ensures { IfOk result (λ taken. IsTaken (next_text draft.old (fields line.now)) taken draft.new) }
{
    let count = draft.core.len();
    take_clause(&mut draft.texts, &mut draft.growing, line, count)
}
