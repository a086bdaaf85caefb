//! Rounds and their steps, read.
ghost use Rattle.std.specs.Prelude.{◌≡◌, ◌≤◌, ◌<◌, IfOk};
ghost use Rattle.lk_model.specs.Limits.{max_vars};
ghost use Rattle.line_text.specs.Fields.{fields};
ghost use Rattle.line_text.specs.Taking.{IsTaken};
ghost use Rattle.round_text.specs.RoundLines.{fresh_rounds, number_after, next_step, rounds_next, all_rounds, closed};

use crate::chain_lists::step_in;
use line_text::behind;
use lk_model::{List, OutOfMemory, Round, Step};
use std::alloc::Global;
use std::mem;

/// The rounds that ended, the steps of the open one, if a round is open, and the number of steps in all.
#[derive(Drop)]
pub struct RoundsPart {
    pub rounds: List<Round>,
    pub is_open: bool,
    pub steps: List<Step>,
    pub count: u64,
}

/// The rounds of which no line was read.
pub fn fresh_rounds(alloc: Global) -> RoundsPart
    ensures { result ≡ fresh_rounds }
{
    RoundsPart {
        rounds: List::new(alloc),
        is_open: false,
        steps: List::new(alloc),
        count: 0,
    }
}

/// Takes a step of the open round, over the variables from 1 to n and after m positions, or else the line
/// of a round, if one may begin. Returns whether the line was taken; otherwise the rounds are not
/// used again. Fails only if memory runs out.
pub fn take_rounds(
    alloc: Global,
    part: &mut RoundsPart,
    line: &[u8],
    n: u32,
    m: u32,
    may: bool,
) -> Result<bool, OutOfMemory>
    requires { n ≤ max_vars }
    ensures { IfOk result (λ taken. IsTaken (rounds_next may n m part.old (fields line.now)) taken part.new) }
{
    if part.is_open {
        return take_step(alloc, part, line, n, m);
    }
    if !may {
        return Ok(false);
    }
    if line != b"c round".as_slice() {
        return Ok(false);
    }
    part.is_open = true;
    Ok(true)
}

/// Takes a step of the open round.
fn take_step(
    alloc: Global,
    part: &mut RoundsPart,
    line: &[u8],
    n: u32,
    m: u32,
) -> Result<bool, OutOfMemory>
    requires { n ≤ max_vars }
    ensures { IfOk result (λ taken. IsTaken (next_step n m part.old (fields line.now)) taken part.new) }
{
    let Some(rest) = behind(line, b"c", b"step") else {
        return Ok(false);
    };
    let Some(number) = number_after(m, part.count) else {
        return Ok(false);
    };
    let Some(step) = step_in(alloc, rest, n, number)? else {
        return Ok(false);
    };
    let ends = step.clause.len() == 0;
    part.steps.push(step)?;
    part.count += 1;
    if ends {
        close(alloc, part)?;
    }
    Ok(true)
}

/// The number of the next step after `count` steps, if it is one of 64 bits.
fn number_after(m: u32, count: u64) -> Option<u64>
    ensures { result ≡ number_after m count }
{
    count.checked_add(u64::from(m) + 1)
}

/// Ends the open round.
fn close(alloc: Global, part: &mut RoundsPart) -> Result<(), OutOfMemory>
    ensures { IfOk result (λ unit. part.new ≡ closed part.old) }
{
    let steps = mem::replace(&mut part.steps, List::new(alloc));
    part.rounds.push(Round { steps })?;
    part.is_open = false;
    Ok(())
}

/// All rounds that were read, the open one too. Fails only if memory runs out.
pub fn all_rounds(part: RoundsPart) -> Result<List<Round>, OutOfMemory>
    ensures { IfOk result (λ rounds. rounds ≡ all_rounds part) }
{
    let mut rounds = part.rounds;
    if part.is_open {
        rounds.push(Round { steps: part.steps })?;
    }
    Ok(rounds)
}
