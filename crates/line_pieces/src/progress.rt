//! What is held of a text in pieces, and what a piece does to it.
ghost use Rattle.std.specs.Prelude.{◌≡◌, ◌≤◌, ◌<◌, ◌+◌, ◌^◌, [], ◌++◌, ℕ, List, length, OnOk, IfOk, IfErr, IsTrue};
ghost use Rattle.lk_text.specs.Cutting.{is_one_line};
ghost use Rattle.line_text.specs.LineReading.{TakesLine, IsReadBy, IsAdmitted, IsStopOf};
ghost use Rattle.line_pieces.specs.Fed.{IsSound, HasTaken, Extends, Refuses, IsSettledAs, EndsLine, RefusesLine};

use line_text::LineReader;
use lk_model::{OutOfMemory, ReadStop};
use lk_text::next_line;
use std::alloc::Global;

/// How many bytes a text has at most: as many as memory could hold.
const MAX_BYTES: usize = isize::MAX as usize;

/// A text of which some bytes were read, and no line was refused.
#[derive(Drop)]
pub(crate) struct Progress<R> {
    /// What the lines that ended led to.
    pub reader: R,
    /// The bytes of the line that has not ended.
    pub unended: Vec<u8>,
    /// How many lines ended.
    pub lines: u64,
    /// How many bytes were read.
    pub bytes: usize,
}

/// What a reader holds.
#[derive(Drop)]
pub(crate) enum Held<R> {
    Going(Progress<R>),
    Stopped(ReadStop),
}

/// Takes the next piece of the text.
pub(crate) fn take_piece<R: LineReader + Drop>(
    alloc: Global,
    progress: &mut Progress<R>,
    piece: &[u8],
) -> Result<(), ReadStop>
    requires sound { IsSound R.fits R.count progress.old }
    ensures sound { OnOk result (IsSound R.fits R.count progress.new) }
    ensures taken { (first : R) (fed : List ℕ) → HasTaken R.completes first fed progress.old
        → OnOk result (HasTaken R.completes first (fed ++ piece.now) progress.new) }
    ensures stop { (first : R) (fed : List ℕ) → HasTaken R.completes first fed progress.old
        → IfErr result (IsSettledAs (IsAdmitted (R.completes first)) (fed ++ piece.now)) }
{
    if piece.len() > MAX_BYTES - progress.bytes {
        return Err(ReadStop::OutOfMemory);
    }
    progress.bytes += piece.len();
    take_lines(alloc, progress, piece)
}

/// Takes the lines that end in the piece, and keeps what stands after them.
fn take_lines<R: LineReader + Drop>(
    alloc: Global,
    progress: &mut Progress<R>,
    piece: &[u8],
) -> Result<(), ReadStop>
    requires fits { R.fits progress.old.reader }
    requires read { R.count progress.old.reader ≡ progress.old.lines }
    requires one_line { IsTrue (is_one_line progress.old.unended.items) }
    requires few { progress.old.lines + length piece.now ≤ progress.old.bytes }
    requires limit { progress.old.bytes < 2 ^ 63 }
    ensures sound { OnOk result (IsSound R.fits R.count progress.new) }
    ensures bytes { OnOk result (progress.new.bytes ≡ progress.old.bytes) }
    ensures taken { OnOk result (Extends R.completes progress.old progress.new piece.now) }
    ensures stop { IfErr result (Refuses R.completes progress.old piece.now) }
{
    let mut from = 0;
    'lines: while let Some(cut) = next_line(piece, from) {
        let bytes = &piece[cut.begin..cut.end];
        if cut.end == piece.len() {
            go_on(&mut progress.unended, bytes)?;
            return Ok(());
        }
        end_line(alloc, progress, bytes)?;
        from = cut.next;
    }
    Ok(())
}

/// Keeps these bytes of the open line.
fn go_on(unended: &mut Vec<u8>, bytes: &[u8]) -> Result<(), OutOfMemory>
    ensures { OnOk result (unended.new.items ≡ unended.old.items ++ bytes.now) }
{
    unended.extend_from_slice(bytes)?;
    Ok(())
}

/// Ends the open line with these bytes, or refuses it.
fn end_line<R: LineReader + Drop>(
    alloc: Global,
    progress: &mut Progress<R>,
    rest: &[u8],
) -> Result<(), ReadStop>
    requires fits { R.fits progress.old.reader }
    requires read { R.count progress.old.reader ≡ progress.old.lines }
    requires few { progress.old.lines + 1 < 2 ^ 63 }
    requires open_line { IsTrue (is_one_line progress.old.unended.items) }
    requires one_line { IsTrue (is_one_line rest.now) }
    ensures fits { OnOk result (R.fits progress.new.reader) }
    ensures read { OnOk result (R.count progress.new.reader ≡ progress.new.lines) }
    ensures lines { OnOk result (progress.new.lines ≡ progress.old.lines + 1) }
    ensures bytes { OnOk result (progress.new.bytes ≡ progress.old.bytes) }
    ensures unended { OnOk result (progress.new.unended.items ≡ []) }
    ensures ended { OnOk result (EndsLine R.completes progress.old progress.new rest.now) }
    ensures refused { IfErr result (RefusesLine R.completes progress.old rest.now) }
{
    progress.lines += 1;
    if take_line(alloc, &mut progress.reader, &mut progress.unended, rest)? {
        Ok(())
    } else {
        Err(ReadStop::Line(progress.lines))
    }
}

/// Gives the reader the line whose last bytes these are, and forgets it. A line that lies whole in one piece
/// is not copied.
fn take_line<R: LineReader + Drop>(
    alloc: Global,
    reader: &mut R,
    unended: &mut Vec<u8>,
    rest: &[u8],
) -> Result<bool, OutOfMemory>
    requires fits { R.fits reader.old }
    requires few { R.count reader.old + 1 < 2 ^ 63 }
    requires open_line { IsTrue (is_one_line unended.old.items) }
    requires one_line { IsTrue (is_one_line rest.now) }
    ensures taken { IfOk result
        (TakesLine (R.completes reader.old) (R.completes reader.new) (unended.old.items ++ rest.now)) }
    ensures fits { IfOk result (λ taken. IsTrue taken → R.fits reader.new) }
    ensures count { IfOk result (λ taken. IsTrue taken → R.count reader.new ≡ R.count reader.old + 1) }
    ensures unended { OnOk result (unended.new.items ≡ []) }
{
    if unended.is_empty() {
        return reader.take(alloc, rest);
    }
    go_on(unended, rest)?;
    let taken = reader.take(alloc, unended.as_slice())?;
    unended.clear();
    Ok(taken)
}

/// The value of the text that ends here.
pub(crate) fn value_of<R: LineReader + Drop>(progress: Progress<R>) -> Result<R::Value, ReadStop>
    requires { IsSound R.fits R.count progress }
    ensures value { (first : R) (fed : List ℕ) → HasTaken R.completes first fed progress
        → IfOk result (IsReadBy (R.completes first) fed) }
    ensures stop { (first : R) (fed : List ℕ) → HasTaken R.completes first fed progress
        → IfErr result (IsStopOf (IsAdmitted (R.completes first)) fed) }
{
    let line = progress.lines + 1;
    if !progress.unended.is_empty() {
        return Err(ReadStop::Line(line));
    }
    match progress.reader.finish()? {
        Some(value) => Ok(value),
        None => Err(ReadStop::Line(line)),
    }
}
