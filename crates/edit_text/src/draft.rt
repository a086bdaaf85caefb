//! What the lines of a text of edits led to.
ghost use Rattle.std.specs.Prelude.{◌≡◌, ◌<◌, [], ℕ, List, IfOk, OnOk, min, ◌^◌};
ghost use Rattle.lk_model.specs.Formulas.Formula.{literal_count};
ghost use Rattle.edit_text.specs.LiveClauses.{LiveClauses, live_of};
ghost use Rattle.edit_text.specs.Fed.{Tells, Makes, IsSoundDraft};
ghost use Rattle.edit_text.specs.declared.edit.Edit.{Edit as EditOf};
ghost use Rattle.edit_text.specs.declared.edit.Edit.TheVariants.{Add, Remove};

use crate::edit::{Edit, EditFault};
use lk_model::{Formula, List, MAX_CLAUSES, MAX_LITERALS, OpenClause, OutOfMemory};
use std::alloc::Global;

/// What the lines so far led to.
#[derive(Drop)]
pub(crate) struct Draft {
    pub alloc: Global,
    /// For each clause that was ever held, whether it is live.
    pub live: Vec<bool>,
    /// How many literals these clauses have together.
    pub literals: usize,
    pub edits: List<Edit>,
    /// The clause of the current line.
    pub clause: OpenClause,
}

/// What no line led to.
pub(crate) fn draft_of(alloc: Global, f: &Formula) -> Result<Draft, OutOfMemory>
    ensures sound { IfOk result IsSoundDraft }
    ensures tells { IfOk result (Tells (live_of f.now) []) }
{
    Ok(Draft {
        alloc,
        live: vec![in alloc; true; f.len() as usize]?,
        literals: literals_of(f),
        edits: List::new(alloc),
        clause: OpenClause::new(alloc, f.vars())?,
    })
}

/// How many literals the clauses of a formula have together.
fn literals_of(f: &Formula) -> usize
    ensures { result ≡ literal_count f.now }
{
    let mut literals = 0;
    for k in 0..f.len() {
        literals += f.clause(k + 1).len();
    }
    literals
}

/// Adds the clause of the current line, or reports what is wrong with it.
pub(crate) fn add(draft: &mut Draft) -> Result<Option<EditFault>, OutOfMemory>
    requires { IsSoundDraft draft.old }
    ensures sound { OnOk result (IsSoundDraft draft.new) }
    ensures made { (s : LiveClauses) (edits : List EditOf) → Tells s edits draft.old
        → IfOk result (λ fault. Makes s edits (Add draft.old.clause.literals) fault draft.new) }
{
    let count = draft.clause.literals().len();
    if draft.live.len() >= MAX_CLAUSES as usize || count > MAX_LITERALS as usize - draft.literals {
        return Ok(Some(EditFault::PastLimit));
    }
    let literals = draft.clause.literals().to_vec(draft.alloc)?;
    draft.edits.push(Edit::Add(List::from_vec(literals)))?;
    draft.live.push(true)?;
    draft.literals += count;
    Ok(None)
}

/// Removes the clause of a number, or reports what is wrong with that. A number past 2^127 is given as 2^127.
pub(crate) fn remove(draft: &mut Draft, number: u128) -> Result<Option<EditFault>, OutOfMemory>
    requires sound { IsSoundDraft draft.old }
    requires first { 0 < number }
    ensures sound { OnOk result (IsSoundDraft draft.new) }
    ensures made { (s : LiveClauses) (edits : List EditOf) (k : ℕ) → Tells s edits draft.old → number ≡ min k (2 ^ 127)
        → IfOk result (λ fault. Makes s edits (Remove k) fault draft.new) }
{
    if number > draft.live.len() as u128 || !draft.live[number as usize - 1] {
        return Ok(Some(EditFault::NoSuchClause));
    }
    draft.edits.push(Edit::Remove(number as u32))?;
    draft.live[number as usize - 1] = false;
    Ok(None)
}
