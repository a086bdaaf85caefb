//! All formulas of at most four clauses over three variables.
ghost use Rattle.std.specs.Prelude.{IsTrue};
ghost use Rattle.lk_model.specs.Formulas.Lean.{are_positions};
ghost use Rattle.bipartite_match.specs.Matchings.{IsMaximum};

use crate::matchings::pairs;
use bipartite_match::{Matching, maximum, reach};
use lk_model::{Formula, OutOfMemory};
use lk_samples::{append, positions};
use matching_kernel::matching_kernel;
use std::alloc::{AllocError, Global};
use std::test::Fail;

/// The numbers of a set of variables, each as a digit of two.
fn numbers_of(clause: u32) -> &'static [i32] {
    match clause {
        0 => &[],
        1 => &[1],
        2 => &[-2],
        3 => &[-1, 2],
        4 => &[3],
        5 => &[3, 1],
        6 => &[2, -3],
        _ => &[1, 2, 3],
    }
}

fn put_answer(
    pairs: usize,
    reached: &[u32],
    kept: &[u32],
    out: &mut String,
) -> Result<(), AllocError> {
    writeln!(out, "= {pairs} {reached:?} {kept:?}")
}

/// Writes what walks reach, beside what is kept.
fn tell_reached(
    alloc: Global,
    f: &Formula,
    part: &[u32],
    m: &Matching,
    kept: &[u32],
    out: &mut String,
) -> Result<(), OutOfMemory>
    requires positions { IsTrue (are_positions f.now part.now) }
    requires maximum { IsMaximum f.now part.now m.now }
{
    let r = reach(alloc, f, part, m)?;
    Ok(put_answer(pairs(m), r.kept.as_slice(), kept, out)?)
}

/// Writes what a maximum matching reaches, beside what is kept.
fn tell_matched(
    alloc: Global,
    f: &Formula,
    part: &[u32],
    kept: &[u32],
    out: &mut String,
) -> Result<(), OutOfMemory>
    requires { IsTrue (are_positions f.now part.now) }
{
    let m = maximum(alloc, f, part)?;
    tell_reached(alloc, f, part, &m, kept, out)
}

/// Writes what is found of a part.
fn tell_part(alloc: Global, f: &Formula, part: &[u32], out: &mut String) -> Result<(), OutOfMemory>
    requires { IsTrue (are_positions f.now part.now) }
{
    let kernel = matching_kernel(alloc, f, part)?;
    tell_matched(alloc, f, part, kernel.kept.as_slice(), out)
}

/// Writes what is found of the formula of these sets.
fn tell_formula(alloc: Global, clauses: &[u32], out: &mut String) -> Result<(), Fail> {
    let mut f = Formula::new(alloc, 3)?;
    for clause in clauses {
        append(alloc, &mut f, numbers_of(*clause))?;
    }
    let part = positions(alloc, &f)?;
    Ok(tell_part(alloc, &f, part.as_slice(), out)?)
}

/// How many lists of 0, 1, 2, 3 and 4 clauses there are over three variables.
const LISTS: [u32; 5] = [1, 8, 64, 512, 4096];

/// Writes what is found of the lists with `count` sets.
fn tell_lists(alloc: Global, count: usize, lists: u32, out: &mut String) -> Result<(), Fail> {
    for code in 0..lists {
        let clauses = [code % 8, code / 8 % 8, code / 64 % 8, code / 512];
        tell_formula(alloc, clauses.get(..count).unwrap_or(&[]), out)?;
    }
    Ok(())
}

/// Writes what is found of all small formulas.
pub(crate) fn tell_small(alloc: Global, out: &mut String) -> Result<(), Fail> {
    for (count, lists) in LISTS.iter().enumerate() {
        tell_lists(alloc, count, *lists, out)?;
    }
    Ok(())
}
