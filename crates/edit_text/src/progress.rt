//! Reading, byte by byte.
ghost use Rattle.std.specs.Prelude.{◌≡◌, ◌≢◌, length, ◌≤◌, ◌∷◌, [], ◌++◌, ℕ, List, IfOk, IfErr, OnOk};
ghost use Rattle.lk_model.specs.Formulas.Formula.{Cnf};
ghost use Rattle.lk_model.specs.Limits.{max_bytes};
ghost use Rattle.model_text.specs.ModelTexts.{words_in};
ghost use Rattle.edit_text.specs.LiveClauses.{LiveClauses, live_of};
ghost use Rattle.edit_text.specs.declared.edit.Edit.{Edit as EditOf};
ghost use Rattle.edit_text.specs.Edits.{CanBeMade};
ghost use Rattle.edit_text.specs.EditText.{IsEdits};
ghost use Rattle.edit_text.specs.Fed.{StandsInLine, IsSoundLine, TakesLine, Tells, line_behind, HasTaken};
ghost use Rattle.edit_text.specs.Fed.{IsSoundProgress, IsSoundStage, Stands, IsSettledAs, IsRefusalOf};

use crate::draft::{Draft, draft_of};
use crate::edit::{Edit, EditFault};
use crate::lines::take_line;
use crate::refusal::EditsRefused;
use lk_model::{Formula, List, OutOfMemory};
use std::alloc::Global;

/// How many bytes a text may have.
const MAX_BYTES: usize = 1 << 30;

/// The line that has not ended, after lines without a fault.
#[derive(Drop)]
pub(crate) struct OpenLine {
    pub draft: Draft,
    pub bytes: Vec<u8>,
}

/// Where a text stands.
#[derive(Drop)]
pub(crate) enum Stage {
    /// No line so far has a fault.
    Reading(OpenLine),
    /// This line is the first one with a fault.
    Faulty { line: u64, fault: EditFault },
}

/// A text of which some bytes were read.
#[derive(Drop)]
pub(crate) struct Progress {
    pub bytes: usize,
    /// The line of the next byte, counted from 1.
    pub line: u64,
    pub stage: Stage,
}

/// What a reader holds.
#[derive(Drop)]
pub(crate) enum Held {
    Going(Progress),
    Stopped(EditsRefused),
}

/// A text of which nothing was read.
pub(crate) fn nothing_read(alloc: Global, f: &Formula) -> Result<Progress, OutOfMemory>
    ensures sound { IfOk result IsSoundProgress }
    ensures taken { IfOk result (HasTaken f.now []) }
{
    let draft = draft_of(alloc, f)?;
    Ok(Progress {
        bytes: 0,
        line: 1,
        stage: Stage::Reading(OpenLine {
            draft,
            bytes: Vec::new(alloc),
        }),
    })
}

/// Takes the bytes of a piece.
pub(crate) fn take_all(progress: &mut Progress, piece: &[u8]) -> Result<(), EditsRefused>
    requires { IsSoundProgress progress.old }
    ensures sound { OnOk result (IsSoundProgress progress.new) }
    ensures ok { (F : Cnf) (fed : List ℕ) → HasTaken F fed progress.old →
        OnOk result (HasTaken F (fed ++ piece.now) progress.new) }
    ensures cause { (F : Cnf) (fed : List ℕ) → HasTaken F fed progress.old →
        IfErr result (IsSettledAs F (fed ++ piece.now)) }
{
    for byte in piece {
        if let Err(refused) = take(progress, *byte) {
            return Err(refused);
        }
    }
    Ok(())
}

/// Takes the next byte.
fn take(progress: &mut Progress, byte: u8) -> Result<(), EditsRefused>
    requires { IsSoundProgress progress.old }
    ensures sound { OnOk result (IsSoundProgress progress.new) }
    ensures ok { (F : Cnf) (fed : List ℕ) → HasTaken F fed progress.old →
        OnOk result (HasTaken F (fed ++ byte ∷ []) progress.new) }
    ensures cause { (F : Cnf) (fed : List ℕ) → HasTaken F fed progress.old →
        IfErr result (IsSettledAs F (fed ++ byte ∷ [])) }
{
    if progress.bytes == MAX_BYTES {
        return Err(EditsRefused::Line {
            line: progress.line,
            fault: EditFault::PastLimit,
        });
    }
    step(&mut progress.stage, progress.line, byte)?;
    progress.bytes += 1;
    if byte == b'\n' {
        progress.line += 1;
    }
    Ok(())
}

/// Takes the next byte, which stands in this line.
fn step(stage: &mut Stage, line: u64, byte: u8) -> Result<(), OutOfMemory>
    requires { IsSoundStage stage.old }
    ensures sound { OnOk result (IsSoundStage stage.new) }
    ensures ok { (F : Cnf) (fed : List ℕ) → Stands F fed line stage.old →
        OnOk result (Stands F (fed ++ byte ∷ []) (line_behind line byte) stage.new) }
{
    let Stage::Reading(open_line) = stage else {
        return Ok(());
    };
    if byte != b'\n' {
        return go_on(open_line, byte);
    }
    if let Some(fault) = end_line(open_line)? {
        *stage = Stage::Faulty { line, fault };
    }
    Ok(())
}

/// Takes a byte of the open line.
fn go_on(open_line: &mut OpenLine, byte: u8) -> Result<(), OutOfMemory>
    requires sound { IsSoundLine open_line.old }
    requires other { byte ≢ 10 }
    ensures sound { OnOk result (IsSoundLine open_line.new) }
    ensures draft { OnOk result (open_line.new.draft ≡ open_line.old.draft) }
    ensures bytes { OnOk result (open_line.new.bytes.items ≡ open_line.old.bytes.items ++ byte ∷ []) }
{
    open_line.bytes.push(byte)?;
    Ok(())
}

/// Ends the open line, or reports what is wrong with it.
fn end_line(open_line: &mut OpenLine) -> Result<Option<EditFault>, OutOfMemory>
    requires { IsSoundLine open_line.old }
    ensures sound { OnOk result (IsSoundLine open_line.new) }
    ensures empty { OnOk result (open_line.new.bytes.items ≡ []) }
    ensures taken { (s : LiveClauses) (edits : List EditOf) → Tells s edits open_line.old.draft
        → IfOk result (λ fault. TakesLine s edits (words_in open_line.old.bytes.items) fault open_line.new.draft) }
{
    let fault = take_line(&mut open_line.draft, open_line.bytes.as_slice())?;
    open_line.bytes.clear();
    Ok(fault)
}

/// The edits of the text that ends here.
pub(crate) fn edits_of(progress: Progress) -> Result<List<Edit>, EditsRefused>
    requires { IsSoundProgress progress }
    ensures ok { (F : Cnf) (fed : List ℕ) → HasTaken F fed progress → IfOk result (λ edits. IsEdits F edits fed) }
    ensures made { (F : Cnf) (fed : List ℕ) → HasTaken F fed progress → IfOk result (CanBeMade (live_of F)) }
    ensures cause { (F : Cnf) (fed : List ℕ) → HasTaken F fed progress → IfErr result (IsRefusalOf F fed) }
{
    let line = progress.line;
    match progress.stage {
        Stage::Faulty { line, fault } => Err(EditsRefused::Line { line, fault }),
        Stage::Reading(open_line) => with_last_line(open_line, line),
    }
}

/// The edits of the text whose last line this is.
fn with_last_line(open_line: OpenLine, line: u64) -> Result<List<Edit>, EditsRefused>
    requires { IsSoundLine open_line }
    ensures ok { (F : Cnf) (fed : List ℕ) → length fed ≤ max_bytes → StandsInLine F fed line open_line →
        IfOk result (λ edits. IsEdits F edits fed) }
    ensures made { (F : Cnf) (fed : List ℕ) → StandsInLine F fed line open_line → IfOk result (CanBeMade (live_of F)) }
    ensures cause { (F : Cnf) (fed : List ℕ) → length fed ≤ max_bytes → StandsInLine F fed line open_line →
        IfErr result (IsRefusalOf F fed) }
{
    let mut draft = open_line.draft;
    match take_line(&mut draft, open_line.bytes.as_slice())? {
        Some(fault) => Err(EditsRefused::Line { line, fault }),
        None => Ok(draft.edits),
    }
}
