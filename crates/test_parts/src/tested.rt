//! Refutations and models that are handed in, put to the test.
//!
//! - `chains N C; CLAUSES; CHAINS` reports the refutation of a formula that some chains make, by at most C learned
//!   clauses: its needed steps; or `none`. A chain is the number of its first clause, and then the literal and the
//!   number of each turn; chains have commas between them.
//! - `values N; CLAUSES; LITERALS` reports the literals on variables of the formula that the others make true, if they
//!   satisfy each clause; or `none`.
use crate::command::{Command, budget_of, formula};
use crate::deciding::{is_filled, put_decided};
use crate::lines::put_model;
use lk_model::{List, Lit, Turn};
use lk_samples::{assignment_of_text, formula_of_text};
use part_formula::{tested_model, tested_refutation};
use refutation_log::Chain;
use std::alloc::Global;
use std::test::Fail;

/// Reports what a command asks for.
pub(crate) fn tell_tested(alloc: Global, c: &Command<'_>, out: &mut String) -> Result<(), Fail> {
    match c.word {
        "chains" => tell_chains(alloc, c, out),
        _ => tell_values(alloc, c, out),
    }
}

fn tell_chains(alloc: Global, c: &Command<'_>, out: &mut String) -> Result<(), Fail> {
    let f = formula(alloc, c)?;
    let all = f.positions(alloc)?;
    if !is_filled(&f, all.as_slice()) {
        return Err(Fail::from("an empty clause"));
    }
    let chains = chains_of(alloc, c.more)?;
    match tested_refutation(alloc, &f, chains.as_slice(), budget_of(c.second)?)? {
        Some(round) => Ok(put_decided("= refuted\n", &round, out)?),
        None => Ok(out.push_str("= none\n")?),
    }
}

fn tell_values(alloc: Global, c: &Command<'_>, out: &mut String) -> Result<(), Fail> {
    let f = formula_of_text(alloc, c.first, c.clauses)?;
    let values = assignment_of_text(alloc, c.first, c.more)?;
    match tested_model(alloc, &f, &values)? {
        Some(set) => Ok(put_model(set.as_slice(), out)?),
        None => Ok(out.push_str("= none\n")?),
    }
}

/// The chains of a text, with commas between them; none of a blank one.
fn chains_of(alloc: Global, text: &str) -> Result<Vec<Chain>, Fail> {
    let mut chains = Vec::new(alloc);
    if text.trim().is_empty() {
        return Ok(chains);
    }
    for chain in text.split(",") {
        chains.push(chain_of(alloc, chain.trim())?)?;
    }
    Ok(chains)
}

/// The chain of a text.
fn chain_of(alloc: Global, text: &str) -> Result<Chain, Fail> {
    let (first, rest) = text.split_once(" ").unwrap_or((text, ""));
    let mut turns = List::new(alloc);
    let mut on: Option<Lit> = None;
    for word in rest.split_whitespace() {
        on = match on {
            Some(lit) => {
                turns.push(Turn {
                    lit,
                    with: number(word),
                })?;
                None
            }
            None => Some(literal(word)?),
        };
    }
    Ok(Chain {
        first: number(first),
        turns,
    })
}

/// The number that a word writes, and 0 if it writes none.
fn number(word: &str) -> u64 {
    word.parse().unwrap_or(0)
}

/// The literal that a word writes.
fn literal(word: &str) -> Result<Lit, Fail> {
    Ok(Lit::new(word.parse().unwrap_or(0)).ok_or("no literal")?)
}
