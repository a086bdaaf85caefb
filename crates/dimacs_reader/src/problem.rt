//! The problem line of a text.
ghost use Rattle.std.specs.Prelude.{◌≡◌, ◌+◌, ◌≤◌, ◌∷◌, [], ◌++◌, ℕ, List, IfOk, IfErr, Some, true, false};
ghost use Rattle.lk_model.specs.Limits.{max_vars, max_clauses};
ghost use Rattle.lk_model.specs.Texts.Lines.{is_blank};
ghost use Rattle.lk_model.specs.Texts.Dimacs.{stated_by};
ghost use Rattle.dimacs_reader.specs.Contents.{words_in};
ghost use Rattle.dimacs_reader.specs.ProblemLines.{IsLineSoFar, problem_line_kind};

use crate::bytes::{digit_of, with_digit};
use lk_model::{FaultKind, MAX_CLAUSES, MAX_VARS};

/// A problem line, as far as it was read: up to a byte within a word, or after a word. A number is
/// kept as it stands, or as 2^32 - 1 where it is more.
#[derive(Clone, Copy)]
pub(crate) enum ProblemLine {
    P,
    BehindP,
    C,
    Cn,
    Cnf,
    BehindCnf,
    Vars { vars: u32 },
    BehindVars { vars: u32 },
    Clauses { vars: u32, clauses: u32 },
    BehindClauses { vars: u32, clauses: u32 },
    /// Nothing that a problem line may begin with.
    Other,
}

/// The line with a blank after it.
pub(crate) fn line_with_blank(line: ProblemLine) -> ProblemLine
    ensures { (bytes : List ℕ) → (blank : ℕ) → is_blank blank ≡ true → IsLineSoFar bytes line →
        IsLineSoFar (bytes ++ blank ∷ []) result }
{
    match line {
        ProblemLine::P => ProblemLine::BehindP,
        ProblemLine::C | ProblemLine::Cn => ProblemLine::Other,
        ProblemLine::Cnf => ProblemLine::BehindCnf,
        ProblemLine::Vars { vars } => ProblemLine::BehindVars { vars },
        ProblemLine::Clauses { vars, clauses } => ProblemLine::BehindClauses { vars, clauses },
        behind => behind,
    }
}

/// The line with a byte of a word after it.
pub(crate) fn line_with(line: ProblemLine, byte: u8) -> ProblemLine
    requires { is_blank byte ≡ false }
    ensures { (bytes : List ℕ) → IsLineSoFar bytes line → IsLineSoFar (bytes ++ byte ∷ []) result }
{
    match line {
        ProblemLine::BehindP if byte == b'c' => ProblemLine::C,
        ProblemLine::C if byte == b'n' => ProblemLine::Cn,
        ProblemLine::Cn if byte == b'f' => ProblemLine::Cnf,
        _ => match digit_of(byte) {
            Some(digit) => line_with_digit(line, digit),
            None => ProblemLine::Other,
        },
    }
}

/// The line with a digit after it.
fn line_with_digit(line: ProblemLine, digit: u32) -> ProblemLine
    requires { digit ≤ 9 }
    ensures { (bytes : List ℕ) → IsLineSoFar bytes line → IsLineSoFar (bytes ++ (digit + 48) ∷ []) result }
{
    match line {
        ProblemLine::BehindCnf => ProblemLine::Vars { vars: digit },
        ProblemLine::Vars { vars } => ProblemLine::Vars {
            vars: with_digit(vars, digit),
        },
        ProblemLine::BehindVars { vars } => ProblemLine::Clauses {
            vars,
            clauses: digit,
        },
        ProblemLine::Clauses { vars, clauses } => ProblemLine::Clauses {
            vars,
            clauses: with_digit(clauses, digit),
        },
        _ => ProblemLine::Other,
    }
}

/// The numbers of variables and of clauses that the line states, or what is wrong with it.
pub(crate) fn stated(line: ProblemLine) -> Result<(u32, u32), FaultKind>
    ensures limits { IfOk result (λ h. (h.0 ≤ max_vars) × (h.1 ≤ max_clauses)) }
    ensures ok { (bytes : List ℕ) → IsLineSoFar bytes line → IfOk result (λ h. stated_by (words_in bytes) ≡ Some h) }
    ensures fault { (bytes : List ℕ) → IsLineSoFar bytes line →
        IfErr result (λ k. problem_line_kind (stated_by (words_in bytes)) ≡ Some k) }
{
    let (vars, clauses) = match line {
        ProblemLine::Clauses { vars, clauses } => (vars, clauses),
        ProblemLine::BehindClauses { vars, clauses } => (vars, clauses),
        _ => return Err(FaultKind::BadHeader),
    };
    if vars > MAX_VARS || clauses > MAX_CLAUSES {
        return Err(FaultKind::Limit);
    }
    Ok((vars, clauses))
}
