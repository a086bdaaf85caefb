//! The lines of the class pure, read.
ghost use Rattle.std.specs.Prelude.{◌≡◌, ◌≤◌, IfOk, map};
ghost use Rattle.lk_model.specs.Limits.{max_vars};
ghost use Rattle.lk_model.specs.declared.document.Pair.{Pair};
ghost use Rattle.line_text.specs.Fields.{fields};
ghost use Rattle.line_text.specs.LastVars.{last_or};
ghost use Rattle.line_text.specs.Taking.{IsTaken};
ghost use Rattle.cert_text.specs.PureLines.{next_order, next_pair, pure_next};

use crate::entries::pair_in;
use line_text::{behind, literals_in};
use lk_model::{List, Lit, OutOfMemory, Pair};
use std::alloc::Global;

/// The order, if its line was read, and the pairs.
#[derive(Drop)]
pub(crate) struct PurePart {
    pub ordered: bool,
    pub order: List<Lit>,
    pub pairs: List<Pair>,
}

/// Takes the line of the order, or one of a pair after it.
pub(crate) fn take_pure(
    alloc: Global,
    part: &mut PurePart,
    line: &[u8],
    n: u32,
    m: u32,
) -> Result<bool, OutOfMemory>
    requires { n ≤ max_vars }
    ensures { IfOk result (λ taken. IsTaken (pure_next n m part.old (fields line.now)) taken part.new) }
{
    if part.ordered {
        take_pair(part, line, n, m)
    } else {
        take_order(alloc, part, line, n)
    }
}

fn take_order(alloc: Global, part: &mut PurePart, line: &[u8], n: u32) -> Result<bool, OutOfMemory>
    requires { n ≤ max_vars }
    ensures { IfOk result (λ taken. IsTaken (next_order n part.old (fields line.now)) taken part.new) }
{
    let Some(rest) = behind(line, b"c", b"order") else {
        return Ok(false);
    };
    let Some(order) = literals_in(alloc, rest, n, false)? else {
        return Ok(false);
    };
    part.ordered = true;
    part.order = order;
    Ok(true)
}

/// The variable of the last pair, or 0 if there is none.
fn last_var(pairs: &[Pair]) -> u32
    ensures { result ≡ last_or 0 (map (λ (q : Pair). q.var) pairs.now) }
{
    match pairs.last() {
        Some(pair) => pair.var,
        None => 0,
    }
}

fn take_pair(part: &mut PurePart, line: &[u8], n: u32, m: u32) -> Result<bool, OutOfMemory>
    ensures { IfOk result (λ taken. IsTaken (next_pair n m part.old (fields line.now)) taken part.new) }
{
    let Some(rest) = behind(line, b"c", b"pair") else {
        return Ok(false);
    };
    let last = last_var(part.pairs.as_slice());
    let Some(pair) = pair_in(rest, last, n, m) else {
        return Ok(false);
    };
    part.pairs.push(pair)?;
    Ok(true)
}
