//! Kernels of parts, found in formulas of their own and in the whole formula.
ghost use Rattle.std.specs.Prelude.{◌≤◌, IsTrue};
ghost use Rattle.lk_model.specs.Formulas.Lean.{are_positions};

use crate::command::{Command, budget_of, formula};
use crate::lines::{put_general, put_matching};
use general_kernel::general_kernel;
use lk_model::{Formula, List};
use lk_samples::{drawn_formula, has_part, numbers_of_text};
use matching_kernel::matching_kernel;
use par_parts::parts;
use part_formula::kernel_of_part;
use part_kernels::matching_of_part;
use std::alloc::{AllocError, Global};
use std::test::Fail;

/// Writes what is found in a part, in a formula of its own or in the whole formula: a matching kernel, or a general
/// one by the command's number of learned clauses.
fn put_found(
    alloc: Global,
    c: &Command<'_>,
    f: &Formula,
    part: &[u32],
    is_alone: bool,
    out: &mut String,
) -> Result<(), Fail>
    requires { IsTrue (are_positions f.now part.now) }
{
    if c.word.starts_with("matching") {
        return Ok(put_matching(
            if is_alone {
                matching_of_part(alloc, f, part)?
            } else {
                matching_kernel(alloc, f, part)?
            },
            out,
        )?);
    }
    let budget = budget_of(c.second)?;
    Ok(put_general(
        if is_alone {
            kernel_of_part(alloc, f, part, budget)?
        } else {
            general_kernel(alloc, f, part, budget)?
        },
        out,
    )?)
}

/// Writes what is found in a part by itself into an empty text: whether the same is found in the whole formula.
fn put_alone(
    alloc: Global,
    c: &Command<'_>,
    f: &Formula,
    part: &[u32],
    out: &mut String,
) -> Result<bool, Fail> {
    if !has_part(f, part) {
        return Err(Fail::from("no part"));
    }
    put_found(alloc, c, f, part, true, out)?;
    let mut whole = String::new(alloc);
    put_found(alloc, c, f, part, false, &mut whole)?;
    Ok(out.as_str() == whole.as_str())
}

/// Whether the same is found in a part by itself and in the whole formula.
fn is_same(alloc: Global, c: &Command<'_>, f: &Formula, part: &[u32]) -> Result<bool, Fail> {
    put_alone(alloc, c, f, part, &mut String::new(alloc))
}

/// The last six positions of a formula.
fn last_six(alloc: Global, f: &Formula) -> Result<Vec<u32>, AllocError> {
    let mut part = Vec::new(alloc);
    let end = f.len() + 1;
    for p in end.saturating_sub(6)..end {
        part.push(p)?;
    }
    Ok(part)
}

/// Reports what is found in some positions of a formula, in the last six of `matching-end`.
pub(crate) fn tell_alone(alloc: Global, c: &Command<'_>, out: &mut String) -> Result<(), Fail> {
    let f = formula(alloc, c)?;
    tell_part(alloc, c, &f, out)
}

fn tell_part(alloc: Global, c: &Command<'_>, f: &Formula, out: &mut String) -> Result<(), Fail> {
    let part = if c.word == "matching-end" {
        last_six(alloc, f)?
    } else {
        numbers_of_text(alloc, c.more)?
    };
    let same = put_alone(alloc, c, f, &part, out)?;
    writeln!(out, "= the same {same}")?;
    Ok(())
}

/// One part of each `each` parts is taken: how many those are, and in how many of them the same is found alone.
pub(crate) fn counts(
    alloc: Global,
    c: &Command<'_>,
    f: &Formula,
    each: usize,
) -> Result<(u32, u32), Fail>
    requires { 1 ≤ each }
{
    let list = parts(alloc, f)?;
    counts_in(alloc, c, f, list.as_slice(), each)
}

fn counts_in(
    alloc: Global,
    c: &Command<'_>,
    f: &Formula,
    list: &[List<u32>],
    each: usize,
) -> Result<(u32, u32), Fail>
    requires { 1 ≤ each }
{
    let (mut count, mut same) = (0u32, 0u32);
    for part in list.iter().step_by(each) {
        let alike = is_same(alloc, c, f, part.as_slice())?;
        count = count.wrapping_add(1);
        same = same.wrapping_add(u32::from(alike));
    }
    Ok((count, same))
}

/// Each third position, which no part is.
fn thirds_of(alloc: Global, f: &Formula) -> Result<Vec<u32>, AllocError> {
    let mut part = Vec::new(alloc);
    for p in 1..f.len() + 1 {
        if p % 3 == 1 {
            part.push(p)?;
        }
    }
    Ok(part)
}

/// Whether the same is found in each third position.
fn is_same_in_thirds(alloc: Global, c: &Command<'_>, f: &Formula) -> Result<bool, Fail> {
    let part = thirds_of(alloc, f)?;
    is_same(alloc, c, f, &part)
}

/// In how many parts of drawn formulas the same is found alone, in how many formulas in each part, and in how many in
/// each third position.
#[derive(Drop)]
struct Tally {
    parts: u32,
    same: u32,
    formulas: u32,
    thirds: u32,
}

impl Tally {
    /// Counts a formula. Thirds are looked at of matching kernels alone.
    fn count(&mut self, alloc: Global, c: &Command<'_>, f: &Formula) -> Result<(), Fail> {
        let (parts, same) = counts(alloc, c, f, 1)?;
        self.parts = self.parts.wrapping_add(parts);
        self.same = self.same.wrapping_add(same);
        self.formulas = self.formulas.wrapping_add(u32::from(parts == same));
        if c.word == "matching-drawn" {
            let alike = is_same_in_thirds(alloc, c, f)?;
            self.thirds = self.thirds.wrapping_add(u32::from(alike));
        }
        Ok(())
    }
}

fn count_drawn(alloc: Global, c: &Command<'_>, seed: u32, tally: &mut Tally) -> Result<(), Fail> {
    let f = drawn_formula(alloc, 20, seed, 24)?;
    tally.count(alloc, c, &f)
}

/// Reports in how many parts of drawn formulas the same is found alone; of matching kernels, in how many formulas it is
/// in each part, and in each third position.
pub(crate) fn tell_drawn(alloc: Global, c: &Command<'_>, out: &mut String) -> Result<(), Fail> {
    let mut tally = Tally {
        parts: 0,
        same: 0,
        formulas: 0,
        thirds: 0,
    };
    for seed in 0..c.first {
        count_drawn(alloc, c, seed, &mut tally)?;
    }
    Ok(put_tally(c, &tally, out)?)
}

fn put_tally(c: &Command<'_>, tally: &Tally, out: &mut String) -> Result<(), AllocError> {
    match c.word {
        "alone-drawn" => writeln!(out, "= the same in {} of {}", tally.same, tally.parts),
        _ => writeln!(
            out,
            "= the same in {} and {} of {}",
            tally.formulas, tally.thirds, c.first
        ),
    }
}
