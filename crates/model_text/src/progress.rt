//! What is held of a model text in pieces, and what a byte does to it.
ghost use Rattle.std.specs.Prelude.{◌≡◌, ◌≤◌, ◌∷◌, [], ◌++◌, ℕ, ℤ, List, length, OnOk, IfOk, IfErr, IsTrue};
ghost use Rattle.lk_text.specs.Cutting.{is_one_line};
ghost use Rattle.model_text.specs.ModelTexts.{IsModelRead, IsModelStop, Gives, TakesLine, words_in};
ghost use Rattle.model_text.specs.Fed.{HasTaken, IsSound, IsSettledAs};

use crate::reading::{ModelDraft, take_line};
use lk_model::{OutOfMemory, ReadStop};
use partial_assign::Partial;
use std::alloc::Global;

/// How many bytes a text has at most: as many as memory could hold.
const MAX_BYTES: usize = isize::MAX as usize;

/// A text of which some bytes were read, and no line was faulty.
#[derive(Drop)]
pub(crate) struct Progress {
    /// What the lines that ended gave.
    pub draft: ModelDraft,
    /// The bytes of the line that has not ended.
    pub unended: Vec<u8>,
    /// How many lines ended.
    pub lines: u64,
    /// How many bytes were read.
    pub bytes: usize,
}

/// What a reader holds.
#[derive(Drop)]
pub(crate) enum Held {
    Going(Progress),
    Stopped(ReadStop),
}

/// A text of which nothing was read.
pub(crate) fn nothing_read(alloc: Global, n: u32) -> Result<Progress, OutOfMemory>
    requires { n ≤ 1000000 }
    ensures sound { IfOk result IsSound }
    ensures taken { IfOk result (HasTaken n []) }
{
    Ok(Progress {
        draft: ModelDraft {
            values: Partial::new(alloc, n)?,
            closed: false,
        },
        unended: Vec::new(alloc),
        lines: 0,
        bytes: 0,
    })
}

/// Takes the bytes of a piece.
pub(crate) fn take_all(progress: &mut Progress, piece: &[u8]) -> Result<(), ReadStop>
    requires { IsSound progress.old }
    ensures sound { OnOk result (IsSound progress.new) }
    ensures taken { (n : ℕ) (fed : List ℕ) → HasTaken n fed progress.old →
        OnOk result (HasTaken n (fed ++ piece.now) progress.new) }
    ensures stop { (n : ℕ) (fed : List ℕ) → HasTaken n fed progress.old →
        IfErr result (IsSettledAs n (fed ++ piece.now)) }
{
    for byte in piece {
        if let Err(stop) = take(progress, *byte) {
            return Err(stop);
        }
    }
    Ok(())
}

/// Takes the next byte.
fn take(progress: &mut Progress, byte: u8) -> Result<(), ReadStop>
    requires { IsSound progress.old }
    ensures sound { OnOk result (IsSound progress.new) }
    ensures taken { (n : ℕ) (fed : List ℕ) → HasTaken n fed progress.old →
        OnOk result (HasTaken n (fed ++ byte ∷ []) progress.new) }
    ensures stop { (n : ℕ) (fed : List ℕ) → HasTaken n fed progress.old →
        IfErr result (IsSettledAs n (fed ++ byte ∷ [])) }
{
    if progress.bytes == MAX_BYTES {
        return Err(ReadStop::OutOfMemory);
    }
    progress.bytes += 1;
    if byte != b'\n' {
        go_on(&mut progress.unended, byte)?;
        return Ok(());
    }
    progress.lines += 1;
    if end_line(&mut progress.draft, &mut progress.unended) {
        Ok(())
    } else {
        Err(ReadStop::Line(progress.lines))
    }
}

/// Keeps a byte of the open line.
fn go_on(unended: &mut Vec<u8>, byte: u8) -> Result<(), OutOfMemory>
    ensures { OnOk result (unended.new.items ≡ unended.old.items ++ byte ∷ []) }
{
    unended.push(byte)?;
    Ok(())
}

/// Takes the line that ends here and forgets it, or reports that it is faulty.
fn end_line(draft: &mut ModelDraft, unended: &mut Vec<u8>) -> bool
    requires { IsTrue (is_one_line unended.old.items) }
    ensures vars { length draft.new.values ≡ length draft.old.values }
    ensures taken { (numbers : List ℤ) → Gives numbers draft.old
        → TakesLine (length draft.old.values) numbers (words_in unended.old.items) result draft.new }
    ensures empty { unended.new.items ≡ [] }
{
    let taken = take_line(draft, unended.as_slice());
    unended.clear();
    taken
}

/// The values of the text that ends here.
pub(crate) fn values_of(progress: Progress) -> Result<Partial, ReadStop>
    requires { IsSound progress }
    ensures model { (n : ℕ) (fed : List ℕ) → HasTaken n fed progress → IfOk result (IsModelRead fed n) }
    ensures stop { (n : ℕ) (fed : List ℕ) → HasTaken n fed progress → IfErr result (IsModelStop fed n) }
{
    let mut draft = progress.draft;
    if take_line(&mut draft, progress.unended.as_slice()) {
        Ok(draft.values)
    } else {
        Err(ReadStop::Line(progress.lines + 1))
    }
}
