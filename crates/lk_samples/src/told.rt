//! Literals and rounds, as lines.
use lk_model::{Lit, Round, Step, Turn};
use std::alloc::AllocError;

/// Writes the numbers of literals, each after a blank.
pub fn put_literals(lits: &[Lit], out: &mut String) -> Result<(), AllocError> {
    for l in lits {
        write!(out, " {}", l.get())?;
    }
    Ok(())
}

fn put_number(number: u64, out: &mut String) -> Result<(), AllocError> {
    write!(out, "= step {number}:")
}

fn put_first(first: u64, out: &mut String) -> Result<(), AllocError> {
    write!(out, " by {first}")
}

fn put_turn(turn: &Turn, out: &mut String) -> Result<(), AllocError> {
    write!(out, " on {} with {}", turn.lit.get(), turn.with)
}

fn put_turns(turns: &[Turn], out: &mut String) -> Result<(), AllocError> {
    for turn in turns {
        put_turn(turn, out)?;
    }
    out.push('\n')
}

/// Writes a step as a line: its number, its clause, the first number of its chain, and the turns.
fn put_step(step: &Step, out: &mut String) -> Result<(), AllocError> {
    put_number(step.number, out)?;
    put_literals(step.clause.as_slice(), out)?;
    put_first(step.first, out)?;
    put_turns(step.turns.as_slice(), out)
}

/// Writes each step as a line.
pub fn put_steps(steps: &[Step], out: &mut String) -> Result<(), AllocError> {
    for step in steps {
        put_step(step, out)?;
    }
    Ok(())
}

/// Writes a round, and each of its steps, as a line.
pub fn put_round(round: &Round, out: &mut String) -> Result<(), AllocError> {
    out.push_str("= round\n")?;
    put_steps(round.steps.as_slice(), out)
}

/// Writes rounds.
pub fn put_rounds(rounds: &[Round], out: &mut String) -> Result<(), AllocError> {
    for round in rounds {
        put_round(round, out)?;
    }
    Ok(())
}
