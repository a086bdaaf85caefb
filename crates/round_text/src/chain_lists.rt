//! The words of a step.
ghost use Rattle.std.specs.Prelude.{◌≡◌, ◌≤◌, ◌<◌, ◌-◌, [], IfOk};
ghost use Rattle.lk_model.specs.Limits.{max_vars};
ghost use Rattle.lk_model.specs.Texts.NumberWords.{plain_number};
ghost use Rattle.line_text.specs.Fields.{fields, number_within, literal_within};
ghost use Rattle.line_text.specs.FieldLists.{twos};
ghost use Rattle.round_text.specs.RoundLines.{ranked_then, turn_by, turn_within, step_within, with_rest};

use line_text::{CLOSING, first_field, literal_in, wide_in};
use lk_model::{List, Lit, OutOfMemory, Step, Turn};
use std::alloc::Global;

/// Reads the literals of a step's clause over the variables from 1 to n, which ascend by rank, into an empty
/// list. Returns what stands after the word 0 that closes them, if there are such literals.
fn read_ranked<'a>(
    clause: &mut List<Lit>,
    line: &'a [u8],
    n: u32,
) -> Result<Option<&'a [u8]>, OutOfMemory>
    requires small { n ≤ max_vars }
    requires empty { clause.old ≡ [] }
    ensures { IfOk result (λ rest. with_rest clause.new rest ≡ ranked_then n [] (fields line.now)) }
{
    let mut last = 1;
    let mut rest = line;
    'words: loop {
        let (word, behind) = first_field(rest);
        let Some(behind) = behind else {
            return Ok(None);
        };
        if word == CLOSING {
            return Ok(Some(behind));
        }
        let Some(literal) = literal_in(word, n) else {
            return Ok(None);
        };
        if literal.rank() <= last {
            return Ok(None);
        }
        clause.push(literal)?;
        last = literal.rank();
        rest = behind;
    }
}

/// The turn of two words.
fn turn_in(word: &[u8], other: &[u8], n: u32, number: u64) -> Option<Turn>
    requires small { n ≤ max_vars }
    requires counted { 0 < number }
    ensures { result ≡ turn_by (literal_within n (plain_number word.now))
        (number_within 1 (number - 1) (plain_number other.now)) }
{
    Some(Turn {
        lit: literal_in(word, n)?,
        with: wide_in(other, 1, number - 1)?,
    })
}

/// The turns of a line, each on a literal over the variables from 1 to n and with a number below that of
/// the step.
fn turns_in(
    alloc: Global,
    line: &[u8],
    n: u32,
    number: u64,
) -> Result<Option<List<Turn>>, OutOfMemory>
    requires small { n ≤ max_vars }
    requires counted { 0 < number }
    ensures { IfOk result (λ turns. turns ≡ twos (turn_within n number) [] (fields line.now)) }
{
    let mut turns = List::new(alloc);
    let mut rest = line;
    'words: loop {
        let (word, behind) = first_field(rest);
        let Some(behind) = behind else {
            return Ok((word == CLOSING).then_some(turns));
        };
        let (other, behind) = first_field(behind);
        let Some(turn) = turn_in(word, other, n, number) else {
            return Ok(None);
        };
        let Some(behind) = behind else {
            return Ok(None);
        };
        turns.push(turn)?;
        rest = behind;
    }
}

/// The step of a line, by its number.
pub(crate) fn step_in(
    alloc: Global,
    line: &[u8],
    n: u32,
    number: u64,
) -> Result<Option<Step>, OutOfMemory>
    requires small { n ≤ max_vars }
    requires counted { 0 < number }
    ensures { IfOk result (λ step. step ≡ step_within n number (fields line.now)) }
{
    let (word, Some(rest)) = first_field(line) else {
        return Ok(None);
    };
    if wide_in(word, number, number).is_none() {
        return Ok(None);
    }
    let mut clause = List::new(alloc);
    let Some(rest) = read_ranked(&mut clause, rest, n)? else {
        return Ok(None);
    };
    let (word, Some(rest)) = first_field(rest) else {
        return Ok(None);
    };
    let Some(first) = wide_in(word, 1, number - 1) else {
        return Ok(None);
    };
    let Some(turns) = turns_in(alloc, rest, n, number)? else {
        return Ok(None);
    };
    Ok(Some(Step {
        number,
        clause,
        first,
        turns,
    }))
}
