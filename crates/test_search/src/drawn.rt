//! Drawn formulas of up to 12 variables, with drawn parts and blocked variables, against a search through all
//! assignments.
ghost use Rattle.std.specs.Prelude.{◌≤◌};

use crate::answers::has_model;
use crate::asking::{Asked, Way};
use crate::left::left_of;
use lk_model::Formula;
use lk_samples::{Numbers, drawn_formula};
use std::alloc::{AllocError, Global};
use std::test::Fail;

/// About three in four of the numbers up to one.
fn draw_part(alloc: Global, numbers: &mut Numbers, most: u32) -> Result<Vec<u32>, AllocError>
    requires { most ≤ 4000000 }
{
    let mut part = Vec::new(alloc);
    for p in 1..most + 1 {
        if numbers.below(4) > 0 {
            part.push(p)?;
        }
    }
    Ok(part)
}

/// About one in eight of the variables up to one.
fn draw_blocked(alloc: Global, numbers: &mut Numbers, n: u32) -> Result<Vec<u32>, AllocError>
    requires { n ≤ 1000000 }
{
    let mut vars = Vec::new(alloc);
    for v in 1..n + 1 {
        if numbers.below(8) == 0 {
            vars.push(v)?;
        }
    }
    Ok(vars)
}

/// Whether the answer to a question stands, and is that of the search.
fn is_right(alloc: Global, asked: &Asked, way: Way) -> Result<bool, Fail> {
    let next = u64::from(asked.formula.len()) + 1;
    let answer = has_model(alloc, asked, way, next)?;
    let left = left_of(alloc, asked)?;
    Ok(answer == Some(plain_judge::has_model(&left.formula)))
}

/// Whether the answer for a drawn part of a formula is right.
fn agrees(alloc: Global, numbers: &mut Numbers, way: Way, f: &Formula) -> Result<bool, Fail> {
    let part = draw_part(alloc, numbers, f.len())?;
    let blocked = draw_blocked(alloc, numbers, f.vars())?;
    let asked = Asked {
        formula: f,
        part: part.as_slice(),
        blocked: blocked.as_slice(),
    };
    is_right(alloc, &asked, way)
}

/// Whether the answer for the next drawn formula is right.
fn next_agrees(alloc: Global, numbers: &mut Numbers, way: Way) -> Result<bool, Fail> {
    let n = numbers.below(12) + 1;
    let seed = numbers.below(60_000);
    let f = drawn_formula(alloc, n, seed, 6 * n)?;
    agrees(alloc, numbers, way, &f)
}

/// Prints of how many drawn formulas the answer is right.
pub(crate) fn put_drawn(
    alloc: Global,
    way: Way,
    seed: u32,
    count: u32,
    out: &mut String,
) -> Result<(), Fail> {
    let mut numbers = Numbers::new(seed);
    let mut right = 0u32;
    for _ in 0..count {
        if next_agrees(alloc, &mut numbers, way)? {
            right = right.saturating_add(1);
        }
    }
    writeln!(
        out,
        "== drawn formulas from {seed} on: {right} of {count} right"
    )?;
    Ok(())
}
