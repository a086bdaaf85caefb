//! Texts that are read line by line, whatever their lines say.
ghost use Rattle.std.specs.Prelude.{◌≡◌, ℕ, ◌+◌, ◌<◌, ◌^◌, List, IfOk, IfErr, IsTrue};
ghost use Rattle.lk_text.specs.Cutting.{is_one_line};
ghost use Rattle.line_text.specs.LineReading.{CanComplete, TakesLine, EndsWith, IsReadBy, IsAdmitted, IsStopOf};

use lk_model::{OutOfMemory, ReadStop};
use lk_text::next_line;
use std::alloc::Global;

/// A reader of texts, line by line: what it has read so far, and what the next line does to it.
pub trait LineReader {
    /// What a whole text says.
    type Value;

    /// It may read on: it is what its lines led to.
    ghost fits: { Self → Type 0 };

    /// How many lines it has read.
    ghost count: { Self → ℕ };

    /// These lines, each with its byte 10, complete what it has read to a text of the value.
    ghost completes: { Self → Self.Value → List (List ℕ) → Type 0 };

    /// Takes the next line, which is passed without its byte 10, or reports that no text goes on with it:
    /// then the reader is spent. Fails only if memory runs out.
    fn take(&mut self, alloc: Global, line: &[u8]) -> Result<bool, OutOfMemory>
        requires fits { fits self.old }
        requires few { count self.old + 1 < 2 ^ 63 }
        requires one_line { IsTrue (is_one_line line.now) }
        ensures taken { IfOk result (TakesLine (completes self.old) (completes self.new) line.now) }
        ensures fits { IfOk result (λ taken. IsTrue taken → fits self.new) }
        ensures count { IfOk result (λ taken. IsTrue taken → count self.new ≡ count self.old + 1) };

    /// The value of the text that ends here, or none where no text does. Fails only if memory runs out.
    fn finish(self) -> Result<Option<Self::Value>, OutOfMemory>
        requires fits { fits self }
        requires few { count self < 2 ^ 63 }
        ensures { IfOk result (EndsWith (completes self)) };
}

/// The value of a text, by a reader that has read nothing yet. Bytes that are no text of this reader are
/// refused with the first line with which none goes on, counted from 1. A last line without its byte 10 is
/// such a line; if the text ends too early, so is the line after its last one. The other error says
/// that memory ran out.
pub fn read_lines<R: LineReader + Drop>(
    alloc: Global,
    reader: R,
    bytes: &[u8],
) -> Result<R::Value, ReadStop>
    requires fits { R.fits reader }
    requires first { R.count reader ≡ 0 }
    requires completed { CanComplete (R.completes reader) }
    ensures value { IfOk result (IsReadBy (R.completes reader) bytes.now) }
    ensures stop { IfErr result (IsStopOf (IsAdmitted (R.completes reader)) bytes.now) }
{
    let mut reader = reader;
    let mut from = 0;
    let mut number = 0u64;
    while let Some(cut) = next_line(bytes, from) {
        number += 1;
        if cut.end == bytes.len() {
            return Err(ReadStop::Line(number));
        }
        if !reader.take(alloc, &bytes[cut.begin..cut.end])? {
            return Err(ReadStop::Line(number));
        }
        from = cut.next;
    }
    match reader.finish()? {
        Some(value) => Ok(value),
        None => Err(ReadStop::Line(number + 1)),
    }
}
