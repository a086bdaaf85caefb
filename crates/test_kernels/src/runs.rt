//! The pivots of formulas, and how they end.
ghost use Rattle.std.specs.Prelude.{◌≡◌};
ghost use Rattle.lk_model.specs.Linear.Phases.{next, StageStands, EndsLean, PivotOn};

use crate::linear::sums;
use crate::telling::{put_begun, put_lean, put_stage, put_wide};
use exact_pivot::{Next, PivotStop, Tableau};
use lk_model::Formula;
use lk_samples::{formula_of_text, number_of, positions};
use std::alloc::{AllocError, Global};
use std::test::Fail;

/// The most pivots that are made.
const MOST: u32 = 1000;

fn put_pivot(row: u32, col: u32, out: &mut String) -> Result<(), AllocError> {
    write!(out, " {row}:{col}")
}

/// Makes a pivot, and writes it: what is then, or nothing where it is too wide, which is written.
fn turn(t: Tableau, row: u32, col: u32, out: &mut String) -> Result<Option<Tableau>, Fail>
    requires { next t ≡ PivotOn row col }
{
    match t.pivot(row, col) {
        Ok(after) => {
            put_pivot(row, col, out)?;
            Ok(Some(after))
        }
        Err(PivotStop::Wide(wide)) => {
            out.push('\n')?;
            put_wide(wide, out)?;
            Ok(None)
        }
        Err(PivotStop::OutOfMemory) => Err(Fail::from("out of memory")),
    }
}

/// Writes the stage, or how many weights it has, and the first two.
fn put_touched(t: &Tableau, is_whole: bool, out: &mut String) -> Result<(), Fail>
    requires { next t.now ≡ StageStands }
{
    let stage = t.stage()?;
    out.push('\n')?;
    if is_whole {
        return Ok(put_stage(&stage, out)?);
    }
    out.push('=')?;
    put_begun(&stage, out)?;
    Ok(out.push('\n')?)
}

/// Writes the duals and the units.
fn put_ended(t: &Tableau, out: &mut String) -> Result<(), Fail>
    requires { next t.now ≡ EndsLean }
{
    let dual = t.dual()?;
    let units = t.units()?;
    out.push_str("\n= lean with")?;
    Ok(put_lean(dual.as_slice(), units.as_slice(), out)?)
}

/// Makes the next pivot, if there is one, or writes how the run ends.
fn go_on(t: Tableau, is_whole: bool, out: &mut String) -> Result<Option<Tableau>, Fail> {
    match t.next_pivot() {
        Next::Pivot { row, col } => turn(t, row, col, out),
        Next::Touch => {
            put_touched(&t, is_whole, out)?;
            Ok(None)
        }
        Next::Lean => {
            put_ended(&t, out)?;
            Ok(None)
        }
    }
}

/// Writes the run of a formula.
fn tell_of(alloc: Global, f: &Formula, is_whole: bool, out: &mut String) -> Result<(), Fail> {
    let part = positions(alloc, f)?;
    let mut now = Some(Tableau::of(alloc, f, part.as_slice())?);
    out.push_str("= pivots")?;
    for _ in 0..MOST {
        now = match now {
            Some(t) => go_on(t, is_whole, out)?,
            None => return Ok(()),
        };
    }
    Ok(())
}

/// Writes the run of the formula that a text has.
pub(crate) fn tell_run(alloc: Global, text: &str, out: &mut String) -> Result<(), Fail> {
    let (n, clauses) = text.split_once(";").unwrap_or((text, ""));
    let f = formula_of_text(alloc, number_of(n), clauses)?;
    tell_of(alloc, &f, true, out)
}

/// Writes the run of a chain of sums.
pub(crate) fn tell_sums(alloc: Global, n: i32, out: &mut String) -> Result<(), Fail> {
    tell_of(alloc, &sums(alloc, 200, n)?, false, out)
}
