//! The lines of the class matching, read.
ghost use Rattle.std.specs.Prelude.{◌≡◌, IfOk, map};
ghost use Rattle.lk_model.specs.declared.document.Own.{Own};
ghost use Rattle.lk_model.specs.declared.document.MatchRow.{MatchRow};
ghost use Rattle.line_text.specs.Fields.{fields};
ghost use Rattle.line_text.specs.LastVars.{last_or};
ghost use Rattle.line_text.specs.Taking.{IsTaken};
ghost use Rattle.cert_text.specs.MatchingLines.{next_own, next_row, matching_next};

use crate::entries::{own_in, row_in};
use line_text::behind;
use lk_model::{List, MatchRow, OutOfMemory, Own};

/// The own clauses, and after them the rows.
#[derive(Drop)]
pub(crate) struct MatchingPart {
    pub own: List<Own>,
    pub rows: List<MatchRow>,
}

/// Takes a line of an own clause before the first row, or one of a row.
pub(crate) fn take_matching(
    part: &mut MatchingPart,
    line: &[u8],
    n: u32,
    m: u32,
) -> Result<bool, OutOfMemory>
    ensures { IfOk result (λ taken. IsTaken (matching_next n m part.old (fields line.now)) taken part.new) }
{
    if let Some(rest) = behind(line, b"c", b"own") {
        return take_own(part, rest, n, m);
    }
    if let Some(rest) = behind(line, b"c", b"row") {
        return take_row(part, rest, n, m);
    }
    Ok(false)
}

fn take_own(part: &mut MatchingPart, rest: &[u8], n: u32, m: u32) -> Result<bool, OutOfMemory>
    ensures { IfOk result (λ taken. IsTaken (next_own n m part.old (fields rest.now)) taken part.new) }
{
    if part.rows.len() != 0 {
        return Ok(false);
    }
    let last = last_pos(part.own.as_slice());
    let Some(own) = own_in(rest, last, n, m) else {
        return Ok(false);
    };
    part.own.push(own)?;
    Ok(true)
}

fn take_row(part: &mut MatchingPart, rest: &[u8], n: u32, m: u32) -> Result<bool, OutOfMemory>
    ensures { IfOk result (λ taken. IsTaken (next_row n m part.old (fields rest.now)) taken part.new) }
{
    let last = last_var(part.rows.as_slice());
    let Some(row) = row_in(rest, last, n, m) else {
        return Ok(false);
    };
    part.rows.push(row)?;
    Ok(true)
}

/// The position of the last own clause, or 0 if there is none.
fn last_pos(own: &[Own]) -> u32
    ensures { result ≡ last_or 0 (map (λ (o : Own). o.pos) own.now) }
{
    match own.last() {
        Some(own) => own.pos,
        None => 0,
    }
}

/// The variable of the last row, or 0 if there is none.
fn last_var(rows: &[MatchRow]) -> u32
    ensures { result ≡ last_or 0 (map (λ (r : MatchRow). r.var) rows.now) }
{
    match rows.last() {
        Some(row) => row.var,
        None => 0,
    }
}
