//! General results of texts, and texts of them.
//!
//! A result has entries with semicolons between them: `kept P..`, `set L..`, and for each round its steps
//! and `end`. A step is `step N FIRST`, then its turns, each as LITERAL/NUMBER, and the literals of its clause.
use lk_model::{GeneralResult, List, Lit, Round, Step, Turn};
use lk_samples::{literals_of_text, numbers_of_text, put_literals};
use std::alloc::{AllocError, Global};
use std::mem;
use std::test::Fail;

/// The results of a text, with bars between them. A text of nothing has none.
pub(crate) fn results_of_text(alloc: Global, text: &str) -> Result<List<GeneralResult>, Fail> {
    let mut found = List::new(alloc);
    if !text.trim().is_empty() {
        push_results(alloc, text, &mut found)?;
    }
    Ok(found)
}

fn push_results(alloc: Global, text: &str, found: &mut List<GeneralResult>) -> Result<(), Fail> {
    for part in text.split("|") {
        found.push(result_of_text(alloc, part)?)?;
    }
    Ok(())
}

/// The result of a text.
fn result_of_text(alloc: Global, text: &str) -> Result<GeneralResult, Fail> {
    let mut r = GeneralResult {
        kept: List::new(alloc),
        set: List::new(alloc),
        rounds: List::new(alloc),
    };
    take_entries(alloc, text, &mut r, &mut List::new(alloc))?;
    Ok(r)
}

/// Takes the entries of a text, with the steps of the last round.
fn take_entries(
    alloc: Global,
    text: &str,
    r: &mut GeneralResult,
    steps: &mut List<Step>,
) -> Result<(), Fail> {
    for entry in text.split(";") {
        take_entry(alloc, entry.trim(), r, steps)?;
    }
    Ok(())
}

fn take_entry(
    alloc: Global,
    entry: &str,
    r: &mut GeneralResult,
    steps: &mut List<Step>,
) -> Result<(), Fail> {
    let (word, more) = entry.split_once(" ").unwrap_or((entry, ""));
    match word {
        "kept" => r.kept = List::from_vec(numbers_of_text(alloc, more)?),
        "set" => r.set = List::from_vec(literals_of_text(alloc, more)?),
        "step" => steps.push(step_of_text(alloc, more)?)?,
        "end" => r.rounds.push(Round {
            steps: mem::replace(steps, List::new(alloc)),
        })?,
        _ => {}
    }
    Ok(())
}

/// The step of a number, the first clause's number, turns and literals.
fn step_of_text(alloc: Global, text: &str) -> Result<Step, Fail> {
    let (number, more) = text.split_once(" ").unwrap_or((text, ""));
    let (first, more) = more.split_once(" ").unwrap_or((more, ""));
    let mut step = Step {
        number: number.parse().unwrap_or(0),
        clause: List::new(alloc),
        first: first.parse().unwrap_or(0),
        turns: List::new(alloc),
    };
    push_words(more, &mut step)?;
    Ok(step)
}

fn push_words(words: &str, step: &mut Step) -> Result<(), Fail> {
    for word in words.split_whitespace() {
        push_word(word, step)?;
    }
    Ok(())
}

/// Appends a turn, or a literal of the clause.
fn push_word(word: &str, step: &mut Step) -> Result<(), Fail> {
    let (lit, behind) = word.split_once("/").unwrap_or((word, ""));
    let lit = Lit::new(lit.parse().unwrap_or(0)).ok_or("no literal")?;
    if behind.is_empty() {
        return Ok(step.clause.push(lit)?);
    }
    let with = behind.parse().unwrap_or(0);
    Ok(step.turns.push(Turn { lit, with })?)
}

/// Writes a result as such a text.
pub(crate) fn put_general(r: &GeneralResult, out: &mut String) -> Result<(), AllocError> {
    out.push_str("= kept")?;
    for p in r.kept.as_slice() {
        write!(out, " {p}")?;
    }
    out.push_str("; set")?;
    put_literals(r.set.as_slice(), out)?;
    for round in r.rounds.as_slice() {
        put_steps(round.steps.as_slice(), out)?;
        out.push_str("; end")?;
    }
    out.push('\n')
}

/// Writes steps.
fn put_steps(steps: &[Step], out: &mut String) -> Result<(), AllocError> {
    for s in steps {
        write!(out, "; step {} {}", s.number, s.first)?;
        for t in s.turns.as_slice() {
            write!(out, " {}/{}", t.lit.get(), t.with)?;
        }
        put_literals(s.clause.as_slice(), out)?;
    }
    Ok(())
}
