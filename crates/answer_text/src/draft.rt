//! What was read of an answer, and one line more.
//!
//! The lines of a round are read as those of documents are, and those of a core as a `CoreDraft` takes them.
ghost use Rattle.std.specs.Prelude.{◌≡◌, ◌≤◌, IfOk};
ghost use Rattle.lk_model.specs.Limits.{max_vars, max_clauses};
ghost use Rattle.line_text.specs.Fields.{fields};
ghost use Rattle.line_text.specs.Taking.{IsTaken};
ghost use Rattle.answer_text.specs.Drafts.{next_state, next_core, next_model, next_round, next_draft, refuted_by};
ghost use Rattle.answer_text.specs.Drafts.{finished, IsRead};

use crate::core_draft::{CoreDraft, core_of, fresh_core, last_round};
use crate::core_steps::take_core;
use line_text::{first_field, literals_in};
use lk_model::{Answer, List, Lit, OutOfMemory};
use round_text::{RoundsPart, fresh_rounds, take_rounds};
use std::alloc::Global;

/// The lines of an answer, as far as they were read.
#[derive(Drop)]
pub(crate) enum Draft {
    /// No line.
    Nothing,
    /// The line that there is a model.
    Satisfiable,
    /// That line, and the line of its literals.
    Model(List<Lit>),
    /// The line that there is no model.
    Unsatisfiable,
    /// That line, the line of a round, and some of its steps or all.
    Refuting(RoundsPart),
    /// The first line of a core, and some of the others or all.
    Core(CoreDraft),
}

/// Takes the next line of an answer for n variables and m clauses. Returns whether the line was taken; the
/// draft is not used again otherwise. Fails only if memory runs out.
pub(crate) fn take_line(
    alloc: Global,
    draft: &mut Draft,
    line: &[u8],
    n: u32,
    m: u32,
) -> Result<bool, OutOfMemory>
    requires { IsRead n m draft.old }
    ensures { IfOk result (λ taken. IsTaken (next_draft n m draft.old (fields line.now)) taken draft.new) }
{
    match draft {
        Draft::Nothing => {
            let state = state_in(alloc, line, n, m)?;
            Ok(lead_on(draft, state))
        }
        Draft::Satisfiable => {
            let model = model_in(alloc, line, n)?;
            Ok(lead_on(draft, model))
        }
        Draft::Model(_) => Ok(false),
        Draft::Unsatisfiable => Ok(lead_on(draft, round_in(alloc, line))),
        Draft::Refuting(part) => take_rounds(alloc, part, line, n, m, false),
        Draft::Core(core) => take_core(alloc, core, line),
    }
}

/// Puts the draft that a line leads to in its place, where it leads to one.
fn lead_on(draft: &mut Draft, next: Option<Draft>) -> bool
    ensures { IsTaken next result draft.new }
{
    match next {
        Some(next) => {
            *draft = next;
            true
        }
        None => false,
    }
}

/// What a first line leads to. Over no clauses there is no refutation, and no core.
fn state_in(alloc: Global, line: &[u8], n: u32, m: u32) -> Result<Option<Draft>, OutOfMemory>
    requires vars { n ≤ max_vars }
    requires clauses { m ≤ max_clauses }
    ensures { IfOk result (λ state. state ≡ next_state n m (fields line.now)) }
{
    if line == b"s SATISFIABLE".as_slice() {
        return Ok(Some(Draft::Satisfiable));
    }
    if m == 0 {
        return Ok(None);
    }
    if line == b"s UNSATISFIABLE".as_slice() {
        return Ok(Some(Draft::Unsatisfiable));
    }
    core_in(alloc, line, n, m)
}

/// The core that a line begins.
fn core_in(alloc: Global, line: &[u8], n: u32, m: u32) -> Result<Option<Draft>, OutOfMemory>
    requires vars { n ≤ max_vars }
    requires clauses { m ≤ max_clauses }
    ensures { IfOk result (λ core. core ≡ next_core n m (fields line.now)) }
{
    let mut core = fresh_core(alloc, n, m)?;
    if take_core(alloc, &mut core, line)? {
        Ok(Some(Draft::Core(core)))
    } else {
        Ok(None)
    }
}

/// The model of a line of values: a literal on each variable from 1 to n, ascending.
fn model_in(alloc: Global, line: &[u8], n: u32) -> Result<Option<Draft>, OutOfMemory>
    requires { n ≤ max_vars }
    ensures { IfOk result (λ model. model ≡ next_model n (fields line.now)) }
{
    let (first, Some(rest)) = first_field(line) else {
        return Ok(None);
    };
    if first != b"v".as_slice() {
        return Ok(None);
    }
    let Some(lits) = literals_in(alloc, rest, n, true)? else {
        return Ok(None);
    };
    if lits.len() != n as usize {
        return Ok(None);
    }
    Ok(Some(Draft::Model(lits)))
}

/// The round that a line begins.
fn round_in(alloc: Global, line: &[u8]) -> Option<Draft>
    ensures { result ≡ next_round (fields line.now) }
{
    if line != b"c round".as_slice() {
        return None;
    }
    let mut part = fresh_rounds(alloc);
    part.is_open = true;
    Some(Draft::Refuting(part))
}

/// The answer of a draft, if all its lines were read.
pub(crate) fn finish(draft: Draft) -> Option<Answer>
    ensures { result ≡ finished draft }
{
    match draft {
        Draft::Model(lits) => Some(Answer::Model(lits)),
        Draft::Refuting(part) => refuted(part),
        Draft::Core(core) => Some(Answer::Core(core_of(core)?)),
        _ => None,
    }
}

/// The refutation whose round has ended, if one has.
fn refuted(part: RoundsPart) -> Option<Answer>
    ensures { result ≡ refuted_by part }
{
    match last_round(part.rounds) {
        Some(round) => Some(Answer::Refuted(round)),
        None => None,
    }
}
