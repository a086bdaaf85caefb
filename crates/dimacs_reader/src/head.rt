//! What stands before the numbers.
ghost use Rattle.std.specs.Prelude.{◌≡◌, ◌<◌, ◌≤◌, ◌+◌, ◌∷◌, [], ◌++◌, ℕ, List, length, IfOk, IfErr, true, false};
ghost use Rattle.lk_model.specs.Limits.{max_vars, max_clauses};
ghost use Rattle.lk_model.specs.Texts.Lines.{is_newline, is_blank};
ghost use Rattle.lk_model.specs.Texts.Dimacs.{stated_by};
ghost use Rattle.dimacs_reader.specs.Contents.{words_in};
ghost use Rattle.dimacs_reader.specs.ProblemLines.{IsLineSoFar, problem_line_kind};
ghost use Rattle.dimacs_reader.specs.Stages.{StandsInHead, StandsAt, IsWithinLimits, IsMet};

use crate::bytes::{ByteKind, byte_kind};
use crate::problem::{ProblemLine, line_with, line_with_blank, stated};
use crate::stop::fault_at;
use lk_model::{Fault, FaultKind};

/// Where in a line a text stands before the numbers.
#[derive(Clone, Copy)]
pub(crate) enum HeadLine {
    /// The line has only blanks so far.
    Start,
    Comment,
    Problem(ProblemLine),
}

/// Where a text stands after one more byte.
#[derive(Clone, Copy)]
pub(crate) enum HeadStep {
    In(HeadLine),
    /// The problem line has ended, and states these numbers.
    Stated { vars: u32, clauses: u32 },
}

/// Takes the next byte, after `before` bytes.
pub(crate) fn head_step(line: HeadLine, byte: u8, before: usize) -> Result<HeadStep, Fault>
    requires { before < usize.MAX }
    ensures limits { IfOk result IsWithinLimits }
    ensures ok { (fed : List ℕ) → length fed ≡ before → StandsInHead fed line →
        IfOk result (StandsAt (fed ++ byte ∷ [])) }
    ensures fault { (fed : List ℕ) → length fed ≡ before → StandsInHead fed line → IfErr result (IsMet fed byte) }
{
    match byte_kind(byte) {
        ByteKind::Newline => end_line(line, before),
        ByteKind::Blank => Ok(HeadStep::In(with_blank(line))),
        ByteKind::Word => Ok(HeadStep::In(with_byte(line, byte, before)?)),
    }
}

/// Takes the end of the line, after `before` bytes.
fn end_line(line: HeadLine, before: usize) -> Result<HeadStep, Fault>
    ensures limits { IfOk result IsWithinLimits }
    ensures ok { (fed : List ℕ) → length fed ≡ before → StandsInHead fed line →
        IfOk result (StandsAt (fed ++ 10 ∷ [])) }
    ensures fault { (fed : List ℕ) → length fed ≡ before → StandsInHead fed line → IfErr result (IsMet fed 10) }
{
    let HeadLine::Problem(problem) = line else {
        return Ok(HeadStep::In(HeadLine::Start));
    };
    let (vars, clauses) = stated_at(problem, before)?;
    Ok(HeadStep::Stated { vars, clauses })
}

/// The numbers that a problem line states whose last byte has this number.
pub(crate) fn stated_at(line: ProblemLine, last: usize) -> Result<(u32, u32), Fault>
    ensures limits { IfOk result (λ h. (h.0 ≤ max_vars) × (h.1 ≤ max_clauses)) }
    ensures ok { (bytes : List ℕ) → IsLineSoFar bytes line → IfOk result (λ h. stated_by (words_in bytes) ≡ Some h) }
    ensures fault { (bytes : List ℕ) → IsLineSoFar bytes line →
        IfErr result (λ f. (problem_line_kind (stated_by (words_in bytes)) ≡ Some f.kind) × (f.place ≡ last)) }
{
    match stated(line) {
        Ok(numbers) => Ok(numbers),
        Err(kind) => Err(fault_at(kind, last)),
    }
}

/// The line with a blank after it.
fn with_blank(line: HeadLine) -> HeadLine
    ensures { (fed : List ℕ) → (blank : ℕ) → is_blank blank ≡ true → is_newline blank ≡ false → StandsInHead fed line →
        StandsInHead (fed ++ blank ∷ []) result }
{
    match line {
        HeadLine::Problem(problem) => HeadLine::Problem(line_with_blank(problem)),
        other => other,
    }
}

/// The line with a byte of a word after it.
fn with_byte(line: HeadLine, byte: u8, before: usize) -> Result<HeadLine, Fault>
    requires room { before < usize.MAX }
    requires no_newline { is_newline byte ≡ false }
    requires no_blank { is_blank byte ≡ false }
    ensures ok { (fed : List ℕ) → length fed ≡ before → StandsInHead fed line →
        IfOk result (StandsInHead (fed ++ byte ∷ [])) }
    ensures fault { (fed : List ℕ) → length fed ≡ before → StandsInHead fed line → IfErr result (IsMet fed byte) }
{
    match line {
        HeadLine::Start => begun(byte, before + 1),
        HeadLine::Comment => Ok(HeadLine::Comment),
        HeadLine::Problem(problem) => Ok(HeadLine::Problem(line_with(problem, byte))),
    }
}

/// The line whose first byte that is no blank is this one.
fn begun(byte: u8, place: usize) -> Result<HeadLine, Fault>
    requires no_newline { is_newline byte ≡ false }
    requires no_blank { is_blank byte ≡ false }
    ensures ok { (fed : List ℕ) → length fed + 1 ≡ place → StandsInHead fed HeadLine.Start →
        IfOk result (StandsInHead (fed ++ byte ∷ [])) }
    ensures fault { (fed : List ℕ) → length fed + 1 ≡ place → StandsInHead fed HeadLine.Start →
        IfErr result (IsMet fed byte) }
{
    match byte {
        b'c' => Ok(HeadLine::Comment),
        b'p' => Ok(HeadLine::Problem(ProblemLine::P)),
        _ => Err(fault_at(FaultKind::NoHeader, place)),
    }
}
