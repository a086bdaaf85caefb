//! The problem line and the clause lines, read.
ghost use Rattle.std.specs.Prelude.{◌≤◌, ◌≡◌, IfOk};
ghost use Rattle.lk_model.specs.Limits.{max_clauses};
ghost use Rattle.line_text.specs.Fields.{fields};
ghost use Rattle.line_text.specs.Taking.{IsTaken};
ghost use Rattle.line_text.specs.SizeLines.{has_sizes, is_problem};
ghost use Rattle.formula_text.specs.FormulaLines.{next_clause, IsReady, IsReadyAgain};

use line_text::{behind, read_clause, two_numbers};
use lk_model::{Formula, FormulaError, MAX_CLAUSES, MAX_VARS, OpenClause, OutOfMemory};

/// Whether the line is these two words and these numbers of variables and clauses.
pub fn has_sizes(line: &[u8], first: &[u8], second: &[u8], vars: u32, clauses: usize) -> bool
    ensures { result ≡ has_sizes first.now second.now vars clauses (fields line.now) }
{
    let Some(rest) = behind(line, first, second) else {
        return false;
    };
    match two_numbers(rest, MAX_VARS, MAX_CLAUSES) {
        Some((n, count)) => n == vars && count as usize == clauses,
        None => false,
    }
}

/// Whether the line is the problem line with these numbers of variables and clauses.
pub fn is_problem(line: &[u8], vars: u32, clauses: usize) -> bool
    ensures { result ≡ is_problem vars clauses (fields line.now) }
{
    has_sizes(line, b"p", b"cnf", vars, clauses)
}

/// Takes the line of a clause, where there are to be `count` clauses, by an open clause that has no literal before
/// and after. Returns whether the line was taken; nothing is used again otherwise. Fails only if memory
/// runs out.
pub fn take_clause(
    texts: &mut Formula,
    growing: &mut OpenClause,
    line: &[u8],
    count: usize,
) -> Result<bool, OutOfMemory>
    requires few { count ≤ max_clauses }
    requires growing { IsReady texts.old.vars growing.old }
    ensures taken { IfOk result (λ taken. IsTaken (next_clause count texts.old (fields line.now)) taken texts.new) }
    ensures ready { IfOk result (λ taken. IsReadyAgain taken texts.old.vars growing.new) }
{
    if texts.len() as usize >= count {
        return Ok(false);
    }
    if !read_clause(growing, line)? {
        return Ok(false);
    }
    match texts.push_clause(growing.literals()) {
        Ok(()) => {
            growing.clear();
            Ok(true)
        }
        Err(FormulaError::Limit) => Ok(false),
        Err(FormulaError::OutOfMemory) => Err(OutOfMemory),
    }
}
