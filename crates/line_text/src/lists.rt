//! Lists that the word 0 closes.
ghost use Rattle.std.specs.Prelude.{◌≡◌, ◌≤◌, [], ◌||◌, not, nat_lt, IfOk};
ghost use Rattle.lk_model.specs.Formulas.Literal.{variable};
ghost use Rattle.line_text.specs.Fields.{fields};
ghost use Rattle.line_text.specs.FieldLists.{rising_from, literals_from, clause_from, IsClauseOf};

use crate::fields::{first_field, literal_in, number_in};
use lk_model::{List, Lit, OpenClause, OutOfMemory};
use std::alloc::Global;

/// The word that closes a list: `0`.
pub const CLOSING: &[u8] = b"0";

/// The numbers of a line, which ascend from at least 1 to at most the greatest. There are none where
/// the line is no such list. Fails only if memory runs out.
pub fn numbers_in(alloc: Global, line: &[u8], high: u32) -> Result<Option<List<u32>>, OutOfMemory>
    requires { high ≤ 4000000 }
    ensures { IfOk result (λ numbers. numbers ≡ rising_from 0 high (fields line.now)) }
{
    let mut numbers = List::new(alloc);
    let mut last = 0;
    let mut rest = line;
    'words: loop {
        let (word, behind) = first_field(rest);
        let Some(behind) = behind else {
            return Ok((word == CLOSING).then_some(numbers));
        };
        let Some(number) = number_in(word, last + 1, high) else {
            return Ok(None);
        };
        numbers.push(number)?;
        last = number;
        rest = behind;
    }
}

/// The literals of a line, over the variables from 1 to n, whose variables ascend where they are to
/// rise. There are none where the line is no such list. Fails only if memory runs out.
pub fn literals_in(
    alloc: Global,
    line: &[u8],
    n: u32,
    rising: bool,
) -> Result<Option<List<Lit>>, OutOfMemory>
    requires { n ≤ 1000000 }
    ensures { IfOk result (λ literals. literals ≡ literals_from rising n 0 (fields line.now)) }
{
    let mut literals = List::new(alloc);
    let mut last = 0;
    let mut rest = line;
    'words: loop {
        let (word, behind) = first_field(rest);
        let Some(behind) = behind else {
            return Ok((word == CLOSING).then_some(literals));
        };
        let Some(literal) = literal_in(word, n) else {
            return Ok(None);
        };
        if !may_follow(literal, last, rising) {
            return Ok(None);
        }
        literals.push(literal)?;
        last = literal.var();
        rest = behind;
    }
}

/// Whether the literal may stand after one of the last variable.
fn may_follow(literal: Lit, last: u32, rising: bool) -> bool
    ensures { result ≡ (not rising || nat_lt last (variable literal)) }
{
    !rising || last < literal.var()
}

/// Reads the literals of a line into a clause without literals, and returns whether the line is a clause:
/// no literal stands twice. If it is not, the clause may contain some. Fails only if memory runs out.
pub fn read_clause(clause: &mut OpenClause, line: &[u8]) -> Result<bool, OutOfMemory>
    requires { clause.old.literals ≡ [] }
    ensures read { IfOk result
        (λ is. IsClauseOf (clause_from clause.old.vars [] (fields line.now)) is clause.new.literals) }
    ensures vars { clause.new.vars ≡ clause.old.vars }
{
    let n = clause.vars();
    let mut rest = line;
    'words: loop {
        let (word, behind) = first_field(rest);
        let Some(behind) = behind else {
            return Ok(word == CLOSING);
        };
        let Some(literal) = literal_in(word, n) else {
            return Ok(false);
        };
        if clause.holds(literal) {
            return Ok(false);
        }
        clause.push(literal)?;
        rest = behind;
    }
}
