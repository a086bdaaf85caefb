//! What was read of the text of a core so far.
ghost use Rattle.std.specs.Prelude.{◌≡◌, ◌≤◌, ◌&&◌, ◌==◌, IfOk};
ghost use Rattle.lk_model.specs.Limits.{max_vars};
ghost use Rattle.answer_text.specs.CoreDrafts.{finished, fresh_core, has_ended, last_round};

use lk_model::{Formula, FormulaError, List, MusAnswer, OpenClause, OutOfMemory, Round, Without};
use round_text::{RoundsPart, fresh_rounds};
use std::alloc::Global;

/// Which line is due, that is, to come next.
#[derive(Clone, Copy, PartialEq, Eq)]
pub(crate) enum LineDue {
    Format,
    Sizes,
    Positions,
    /// The line of the round, or of a step of it.
    Steps,
    /// The line of the literals for a position, or the problem line after the last one.
    Witnesses,
    Clauses,
}

/// What was read of the text of a core, up to the line that is due, of a formula with these numbers of variables
/// and clauses. The open clause is the clause line that is being read, and contains no literal between lines.
#[derive(Drop)]
pub(crate) struct CoreDraft {
    pub due: LineDue,
    pub vars: u32,
    pub clauses: u32,
    pub core: List<u32>,
    pub rounds: RoundsPart,
    pub without: List<Without>,
    pub growing: OpenClause,
    pub texts: Formula,
}

/// The draft of which no line was read. Fails only if memory runs out.
pub(crate) fn fresh_core(alloc: Global, vars: u32, clauses: u32) -> Result<CoreDraft, OutOfMemory>
    requires { vars ≤ max_vars }
    ensures { IfOk result (λ draft. draft ≡ fresh_core vars clauses) }
{
    let growing = OpenClause::new(alloc, vars)?;
    let texts = match Formula::new(alloc, vars) {
        Ok(texts) => texts,
        Err(FormulaError::Limit) => unreachable!(),
        Err(FormulaError::OutOfMemory) => return Err(OutOfMemory),
    };
    Ok(CoreDraft {
        due: LineDue::Format,
        vars,
        clauses,
        core: List::new(alloc),
        rounds: fresh_rounds(alloc),
        without: List::new(alloc),
        growing,
        texts,
    })
}

/// Whether all lines of a draft were read.
fn has_ended(draft: &CoreDraft) -> bool
    ensures { result ≡ has_ended draft.now }
{
    draft.due == LineDue::Clauses && draft.texts.len() as usize == draft.core.len()
}

/// What is written of the core, if all its lines were read.
pub(crate) fn core_of(draft: CoreDraft) -> Option<MusAnswer>
    ensures { result ≡ finished draft }
{
    if !has_ended(&draft) {
        return None;
    }
    let read = draft.rounds;
    let round = last_round(read.rounds)?;
    Some(MusAnswer {
        vars: draft.vars,
        clauses: draft.clauses,
        core: draft.core,
        round,
        without: draft.without,
        texts: draft.texts,
    })
}

/// The last of some rounds.
pub(crate) fn last_round(rounds: List<Round>) -> Option<Round>
    ensures { result ≡ last_round rounds }
{
    let mut rounds = rounds;
    rounds.pop()
}
