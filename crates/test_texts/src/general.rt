//! Rounds of documents to be printed.
use crate::printing::{large_at, literals, number_at, numbers};
use lk_model::{List, Lit, Round, Step, Turn};
use std::alloc::Global;
use std::test::Fail;

/// Takes one round more, whose steps have commas between them.
pub(crate) fn take_round(
    alloc: Global,
    rounds: &mut List<Round>,
    word: &str,
    text: &str,
) -> Result<(), Fail> {
    if word != "round" {
        return Err(Fail::from("no part"));
    }
    let mut steps = List::new(alloc);
    if !text.trim().is_empty() {
        for step in text.split(",") {
            steps.push(step_of(alloc, step)?)?;
        }
    }
    rounds.push(Round { steps })?;
    Ok(())
}

/// The step of a text.
fn step_of(alloc: Global, text: &str) -> Result<Step, Fail> {
    let (front, rest) = text.split_once(":").unwrap_or((text, ""));
    let (clause, chain) = rest.split_once(":").unwrap_or((rest, ""));
    let front = numbers(alloc, front)?;
    Ok(Step {
        number: large_at(front.as_slice(), 0),
        clause: literals(alloc, clause)?,
        first: large_at(front.as_slice(), 1),
        turns: turns(alloc, chain)?,
    })
}

/// The turns of literals and numbers, which alternate.
fn turns(alloc: Global, text: &str) -> Result<List<Turn>, Fail> {
    let numbers = numbers(alloc, text)?;
    let mut turns = List::new(alloc);
    for entry in numbers.chunks(2) {
        turns.push(Turn {
            lit: lit_of(number_at(entry, 0))?,
            with: large_at(entry, 1),
        })?;
    }
    Ok(turns)
}

fn lit_of(number: i128) -> Result<Lit, Fail> {
    Ok(Lit::new(i32::try_from(number)?).ok_or("no literal")?)
}
