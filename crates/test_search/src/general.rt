//! General kernels of parts of formulas. Each expected answer was checked by another program, which finds small kernels
//! by all partial assignments and makes each chain resolution by resolution.
//!
//! A line is `kernel N CONFLICTS; CLAUSES; PART`: the number of variables, how many clauses may be learned, from 1
//! to 2^63 - 1, the clauses with commas between them, 0 for an empty one, and the positions of a part, or none for all.
//! The answer has the kept positions and the literals that are set, or `unfinished`, and then each round with its
//! steps: the number of a step, its clause, the first number of its chain, and for each turn a literal and a number.
//! `short` in place of `kernel` leaves the rounds out, and reports how many clauses are learned.
use general_kernel::general_kernel;
use lk_model::{Budget, General, Round, Step};
use lk_samples::{formula_of_text, part_of_text, put_literals, put_rounds};
use std::alloc::{AllocError, Global};
use std::test::Fail;

/// How many steps have a clause with a literal.
fn learned(steps: &[Step]) -> usize {
    let mut count = 0usize;
    for step in steps {
        if step.clause.len() > 0 {
            count = count.saturating_add(1);
        }
    }
    count
}

/// Writes how many rounds there are, and how many clauses each learns.
fn put_counts(rounds: &[Round], out: &mut String) -> Result<(), AllocError> {
    write!(out, "= {} rounds:", rounds.len())?;
    for round in rounds {
        write!(out, " {}", learned(round.steps.as_slice()))?;
    }
    out.push('\n')
}

/// Writes rounds, or their numbers alone.
fn put_some(rounds: &[Round], is_whole: bool, out: &mut String) -> Result<(), AllocError> {
    if is_whole {
        put_rounds(rounds, out)
    } else {
        put_counts(rounds, out)
    }
}

/// Writes what is found.
fn put(found: &General, is_whole: bool, out: &mut String) -> Result<(), AllocError> {
    match found {
        General::Done(result) => {
            write!(out, "= kept {:?} set", result.kept.as_slice())?;
            put_literals(result.set.as_slice(), out)?;
            out.push('\n')?;
            put_some(result.rounds.as_slice(), is_whole, out)
        }
        General::Unfinished(rounds) => {
            out.push_str("= unfinished\n")?;
            put_some(rounds.as_slice(), is_whole, out)
        }
    }
}

/// The budget of `conflicts` learned clauses.
fn budget_of(conflicts: u64) -> Result<Budget, Fail> {
    match Budget::new(conflicts) {
        Some(budget) => Ok(budget),
        None => Err(Fail::from("no budget")),
    }
}

/// Reports what is found in a part of the formula that a text has.
fn tell_part(
    alloc: Global,
    n: u32,
    conflicts: u64,
    texts: (&str, &str),
    is_whole: bool,
    out: &mut String,
) -> Result<(), Fail> {
    let budget = budget_of(conflicts)?;
    let f = formula_of_text(alloc, n, texts.0)?;
    let part = part_of_text(alloc, &f, texts.1)?;
    let found = general_kernel(alloc, &f, part.as_slice(), budget)?;
    Ok(put(&found, is_whole, out)?)
}

/// Writes what the command of a line finds.
pub(crate) fn tell(alloc: Global, line: &str, out: &mut String) -> Result<(), Fail> {
    let (word, text) = line.split_once(" ").unwrap_or((line, ""));
    let (numbers, text) = text.split_once(";").unwrap_or((text, ""));
    let texts = text.split_once(";").unwrap_or((text, ""));
    let (n, conflicts) = numbers.split_once(" ").unwrap_or((numbers, ""));
    let n = n.parse().unwrap_or(0);
    let conflicts = conflicts.parse().unwrap_or(0);
    match word {
        "kernel" => tell_part(alloc, n, conflicts, texts, true, out),
        "short" => tell_part(alloc, n, conflicts, texts, false, out),
        _ => Ok(()),
    }
}
