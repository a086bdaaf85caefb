//! One line more of a document.
ghost use Rattle.std.specs.Prelude.{◌≡◌, ◌≤◌, IfOk, true};
ghost use Rattle.lk_model.specs.Limits.{max_vars, max_clauses};
ghost use Rattle.line_text.specs.Fields.{fields};
ghost use Rattle.cert_text.specs.Drafts.{clause_count, due_then, due_first, next_format, next_sizes, next_protect};
ghost use Rattle.cert_text.specs.Drafts.{next_keep, next_set, next_learned, next_body, next_text, next_draft};
ghost use Rattle.cert_text.specs.Drafts.{protect_of, format_words};
ghost use Rattle.cert_text.specs.Taking.{IsSmall};
ghost use Rattle.formula_text.specs.FormulaLines.{IsReady, IsReadyAgain};
ghost use Rattle.line_text.specs.Taking.{IsTaken};

use crate::draft::{Draft, LineDue};
use crate::part::{Part, is_finished, may_end, part_of, take_part};
use formula_text::{is_problem, take_clause};
use line_text::{behind, first_field, literals_in, numbers_in, one_number, two_numbers};
use lk_model::{Formula, FormulaError, List, MAX_CLAUSES, MAX_VARS, OpenClause, OutOfMemory};
use std::alloc::Global;
use std::mem;

/// The greatest number of learned clauses.
const MAX_LEARNED: u64 = (1 << 63) - 1;

/// Takes the line that is to come next, or reports that this line is no such line. The clause is one over the
/// draft's variables without a literal, and has none again if the line was taken.
pub(crate) fn take_line(
    alloc: Global,
    draft: &mut Draft,
    growing: &mut OpenClause,
    line: &[u8],
) -> Result<bool, OutOfMemory>
    requires small { IsSmall draft.old }
    requires growing { IsReady draft.old.vars growing.old }
    ensures taken { IfOk result (λ taken. IsTaken (next_draft draft.old (fields line.now)) taken draft.new) }
    ensures ready { IfOk result (λ taken. IsReadyAgain taken draft.new.vars growing.new) }
{
    match draft.due {
        LineDue::Format => Ok(take_format(alloc, draft, line)),
        LineDue::Sizes => {
            let taken = take_sizes(alloc, draft, line)?;
            if taken {
                *growing = OpenClause::new(alloc, draft.vars)?;
            }
            Ok(taken)
        }
        LineDue::Protect => take_protect(alloc, draft, line),
        LineDue::Keep => take_keep(alloc, draft, line),
        LineDue::Set => take_set(alloc, draft, line),
        LineDue::Learned => Ok(take_learned(draft, line)),
        LineDue::Body => take_body(alloc, draft, line),
        LineDue::Clauses => take_text(draft, growing, line),
    }
}

/// Takes the line of the version and the class.
fn take_format(alloc: Global, draft: &mut Draft, line: &[u8]) -> bool
    ensures taken { IsTaken (next_format draft.old (fields line.now)) result draft.new }
    ensures vars { draft.new.vars ≡ draft.old.vars }
{
    let Some(rest) = behind(line, b"c", b"leank") else {
        return false;
    };
    let Some((protect, part)) = format_in(alloc, rest) else {
        return false;
    };
    draft.due = LineDue::Sizes;
    draft.protect = protect;
    drop(mem::replace(&mut draft.part, part));
    true
}

/// What the words of the version and the class say.
fn format_in(alloc: Global, line: &[u8]) -> Option<(Option<List<u32>>, Part)>
    ensures { result ≡ format_words (fields line.now) }
{
    let (version, Some(rest)) = first_field(line) else {
        return None;
    };
    let (word, behind) = first_field(rest);
    if behind.is_some() {
        return None;
    }
    let protect = protect_of(alloc, version)?;
    let part = part_of(alloc, word)?;
    Some((protect, part))
}

/// Whether there is a line of protected variables, by the word of the version. None of them was read.
fn protect_of(alloc: Global, version: &[u8]) -> Option<Option<List<u32>>>
    ensures { result ≡ protect_of version.now }
{
    if version == b"1".as_slice() {
        return Some(None);
    }
    if version == b"2".as_slice() {
        return Some(Some(List::new(alloc)));
    }
    None
}

/// The line after that of the protected variables.
fn due_then(part: &Part) -> LineDue
    ensures { result ≡ due_then part.now }
{
    if is_finished(part) {
        LineDue::Keep
    } else {
        LineDue::Learned
    }
}

/// The line after that of the sizes.
fn due_first(protect: &Option<List<u32>>, part: &Part) -> LineDue
    ensures { result ≡ due_first protect.now part.now }
{
    match protect {
        None => due_then(part),
        Some(_) => LineDue::Protect,
    }
}

/// Takes the line of the sizes.
fn take_sizes(alloc: Global, draft: &mut Draft, line: &[u8]) -> Result<bool, OutOfMemory>
    ensures taken { IfOk result (λ taken. IsTaken (next_sizes draft.old (fields line.now)) taken draft.new) }
    ensures small { IfOk result (λ taken. taken ≡ true → draft.new.vars ≤ max_vars) }
{
    let Some(rest) = behind(line, b"c", b"formula") else {
        return Ok(false);
    };
    let Some((vars, clauses)) = two_numbers(rest, MAX_VARS, MAX_CLAUSES) else {
        return Ok(false);
    };
    let texts = match Formula::new(alloc, vars) {
        Ok(texts) => texts,
        Err(FormulaError::Limit) => unreachable!(),
        Err(FormulaError::OutOfMemory) => return Err(OutOfMemory),
    };
    draft.due = due_first(&draft.protect, &draft.part);
    draft.vars = vars;
    draft.clauses = clauses;
    draft.texts = texts;
    Ok(true)
}

/// Takes the line of the protected variables.
fn take_protect(alloc: Global, draft: &mut Draft, line: &[u8]) -> Result<bool, OutOfMemory>
    requires { draft.old.vars ≤ max_vars }
    ensures taken { IfOk result (λ taken. IsTaken (next_protect draft.old (fields line.now)) taken draft.new) }
    ensures vars { draft.new.vars ≡ draft.old.vars }
{
    let Some(rest) = behind(line, b"c", b"protect") else {
        return Ok(false);
    };
    let Some(vars) = numbers_in(alloc, rest, draft.vars)? else {
        return Ok(false);
    };
    draft.due = due_then(&draft.part);
    draft.protect = Some(vars);
    Ok(true)
}

/// Takes the line of the kept positions.
fn take_keep(alloc: Global, draft: &mut Draft, line: &[u8]) -> Result<bool, OutOfMemory>
    requires { draft.old.clauses ≤ max_clauses }
    ensures taken { IfOk result (λ taken. IsTaken (next_keep draft.old (fields line.now)) taken draft.new) }
    ensures vars { draft.new.vars ≡ draft.old.vars }
{
    let Some(rest) = behind(line, b"c", b"keep") else {
        return Ok(false);
    };
    let Some(kept) = numbers_in(alloc, rest, draft.clauses)? else {
        return Ok(false);
    };
    draft.due = LineDue::Set;
    draft.kept = kept;
    Ok(true)
}

/// Takes the line of the literals that are made true.
fn take_set(alloc: Global, draft: &mut Draft, line: &[u8]) -> Result<bool, OutOfMemory>
    requires { draft.old.vars ≤ max_vars }
    ensures taken { IfOk result (λ taken. IsTaken (next_set draft.old (fields line.now)) taken draft.new) }
    ensures vars { draft.new.vars ≡ draft.old.vars }
{
    let Some(rest) = behind(line, b"c", b"set") else {
        return Ok(false);
    };
    let Some(set) = literals_in(alloc, rest, draft.vars, true)? else {
        return Ok(false);
    };
    draft.due = LineDue::Body;
    draft.set = set;
    Ok(true)
}

/// Takes the line of the number of learned clauses.
fn take_learned(draft: &mut Draft, line: &[u8]) -> bool
    ensures taken { IsTaken (next_learned draft.old (fields line.now)) result draft.new }
    ensures vars { draft.new.vars ≡ draft.old.vars }
{
    let Some(rest) = behind(line, b"c", b"learned") else {
        return false;
    };
    let Some(learned) = one_number(rest, MAX_LEARNED) else {
        return false;
    };
    draft.due = LineDue::Body;
    draft.learned = learned;
    true
}

/// How many clause lines there are to be.
pub(crate) fn clause_count(draft: &Draft) -> usize
    ensures { result ≡ clause_count draft.now }
{
    if is_finished(&draft.part) {
        draft.kept.len()
    } else {
        draft.clauses as usize
    }
}

/// Takes a line of the body, or the problem line after the last one.
fn take_body(alloc: Global, draft: &mut Draft, line: &[u8]) -> Result<bool, OutOfMemory>
    requires { draft.old.vars ≤ max_vars }
    ensures taken { IfOk result (λ taken. IsTaken (next_body draft.old (fields line.now)) taken draft.new) }
    ensures vars { draft.new.vars ≡ draft.old.vars }
{
    if !is_problem(line, draft.vars, clause_count(draft)) {
        return take_part(alloc, &mut draft.part, line, draft.vars, draft.clauses);
    }
    if !may_end(&draft.part) {
        return Ok(false);
    }
    draft.due = LineDue::Clauses;
    Ok(true)
}

/// Takes the line of a clause, by an open clause that has no literal before and after.
fn take_text(draft: &mut Draft, growing: &mut OpenClause, line: &[u8]) -> Result<bool, OutOfMemory>
    requires small { IsSmall draft.old }
    requires growing { IsReady draft.old.vars growing.old }
    ensures taken { IfOk result (λ taken. IsTaken (next_text draft.old (fields line.now)) taken draft.new) }
    ensures ready { IfOk result (λ taken. IsReadyAgain taken draft.new.vars growing.new) }
{
    let count = clause_count(draft);
    take_clause(&mut draft.texts, growing, line, count)
}
