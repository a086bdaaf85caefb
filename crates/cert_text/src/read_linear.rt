//! The lines of the class linear, read.
ghost use Rattle.std.specs.Prelude.{◌≡◌, IfOk, map};
ghost use Rattle.lk_model.specs.declared.document.Dual.{Dual};
ghost use Rattle.lk_model.specs.declared.document.Unit.{Unit};
ghost use Rattle.line_text.specs.Fields.{fields};
ghost use Rattle.line_text.specs.LastVars.{last_or};
ghost use Rattle.line_text.specs.Taking.{IsTaken};
ghost use Rattle.cert_text.specs.LinearLines.{next_stage, next_dual, next_unit, linear_next};

use crate::entries::dual_in;
use crate::signed_lists::{unit_in, weights_in};
use line_text::behind;
use lk_model::{Dual, List, OutOfMemory, Stage, Unit};
use std::alloc::Global;

/// The stages, then the duals, then the units.
#[derive(Drop)]
pub(crate) struct LinearPart {
    pub stages: List<Stage>,
    pub dual: List<Dual>,
    pub units: List<Unit>,
}

/// Takes a line of a stage before the first dual and unit, of a dual before the first unit, or of a unit.
pub(crate) fn take_linear(
    alloc: Global,
    part: &mut LinearPart,
    line: &[u8],
    n: u32,
    m: u32,
) -> Result<bool, OutOfMemory>
    ensures { IfOk result (λ taken. IsTaken (linear_next n m part.old (fields line.now)) taken part.new) }
{
    if let Some(rest) = behind(line, b"c", b"stage") {
        return take_stage(alloc, part, rest, n);
    }
    if let Some(rest) = behind(line, b"c", b"dual") {
        return take_dual(part, rest, m);
    }
    if let Some(rest) = behind(line, b"c", b"unit") {
        return take_unit(alloc, part, rest, n, m);
    }
    Ok(false)
}

fn take_stage(
    alloc: Global,
    part: &mut LinearPart,
    rest: &[u8],
    n: u32,
) -> Result<bool, OutOfMemory>
    ensures { IfOk result (λ taken. IsTaken (next_stage n part.old (fields rest.now)) taken part.new) }
{
    if part.dual.len() != 0 {
        return Ok(false);
    }
    if part.units.len() != 0 {
        return Ok(false);
    }
    let Some(weights) = weights_in(alloc, rest, n)? else {
        return Ok(false);
    };
    part.stages.push(Stage { weights })?;
    Ok(true)
}

fn take_dual(part: &mut LinearPart, rest: &[u8], m: u32) -> Result<bool, OutOfMemory>
    ensures { IfOk result (λ taken. IsTaken (next_dual m part.old (fields rest.now)) taken part.new) }
{
    if part.units.len() != 0 {
        return Ok(false);
    }
    let last = last_pos(part.dual.as_slice());
    let Some(dual) = dual_in(rest, last, m) else {
        return Ok(false);
    };
    part.dual.push(dual)?;
    Ok(true)
}

fn take_unit(
    alloc: Global,
    part: &mut LinearPart,
    rest: &[u8],
    n: u32,
    m: u32,
) -> Result<bool, OutOfMemory>
    ensures { IfOk result (λ taken. IsTaken (next_unit n m part.old (fields rest.now)) taken part.new) }
{
    let last = last_var(part.units.as_slice());
    let Some(unit) = unit_in(alloc, rest, last, n, m)? else {
        return Ok(false);
    };
    part.units.push(unit)?;
    Ok(true)
}

/// The position of the last dual, or 0 if there is none.
fn last_pos(dual: &[Dual]) -> u32
    ensures { result ≡ last_or 0 (map (λ (y : Dual). y.pos) dual.now) }
{
    match dual.last() {
        Some(dual) => dual.pos,
        None => 0,
    }
}

/// The variable of the last unit, or 0 if there is none.
fn last_var(units: &[Unit]) -> u32
    ensures { result ≡ last_or 0 (map (λ (u : Unit). u.var) units.now) }
{
    match units.last() {
        Some(unit) => unit.var,
        None => 0,
    }
}
