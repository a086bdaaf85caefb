//! Joins what is found in the parts of formulas. Kernels are those worked out by hand, or found in the whole formula;
//! general results are those of a plain program in Python, which looks each number up.
//!
//! - `kernel N; CLAUSES` reports the matching kernel of a formula, found in each part by itself: the kept
//!   positions, the own lines and the variables of the rows.
//! - `general M; RESULTS` joins general results for the parts of a formula of M clauses, with bars between
//!   them, and reports the result as such a text (`src/given.rt`), or that they cannot be joined.
//! - `drawn N` compares the kernels of N drawn formulas with those that are found in one piece.
use crate::command::{Command, formula};
use crate::given::{put_general, results_of_text};
use crate::joinable::joined;
use crate::joining::kernel_by_parts;
use crate::lines::put_own;
use lk_model::{Formula, GeneralResult, MatchingResult, OutOfMemory};
use lk_samples::{drawn_formula, positions};
use matching_kernel::matching_kernel;
use std::alloc::{AllocError, Global};
use std::test::Fail;

/// Reports the matching kernel of a formula.
fn tell_kernel(alloc: Global, c: &Command<'_>, out: &mut String) -> Result<(), Fail> {
    let f = formula(alloc, c)?;
    Ok(tell_parts(alloc, &f, out)?)
}

fn tell_parts(alloc: Global, f: &Formula, out: &mut String) -> Result<(), OutOfMemory> {
    let r = kernel_by_parts(alloc, f)?;
    Ok(put_kernel(&r, out)?)
}

fn put_kernel(r: &MatchingResult, out: &mut String) -> Result<(), AllocError> {
    write!(out, "= kept {:?}; own", r.kept.as_slice())?;
    put_own(r.own.as_slice(), out)?;
    out.push_str("; rows")?;
    for row in r.rows.as_slice() {
        write!(out, " {}", row.var)?;
    }
    out.push('\n')
}

/// Reports what the results of a text are, joined.
fn tell_general(alloc: Global, c: &Command<'_>, out: &mut String) -> Result<(), Fail> {
    let found = results_of_text(alloc, c.text)?;
    Ok(put_joined(joined(alloc, c.first, found)?, out)?)
}

fn put_joined(joined: Option<GeneralResult>, out: &mut String) -> Result<(), AllocError> {
    match joined {
        Some(r) => put_general(&r, out),
        None => out.push_str("= not joinable\n"),
    }
}

/// Whether the kernel of a formula that a seed draws is the one that is found in one piece.
fn is_whole(alloc: Global, seed: u32) -> Result<bool, Fail> {
    let f = drawn_formula(alloc, 20, seed, 16)?;
    Ok(is_joined(alloc, &f)?)
}

fn is_joined(alloc: Global, f: &Formula) -> Result<bool, OutOfMemory> {
    let whole = kernel(alloc, f)?;
    let joined = kernel_by_parts(alloc, f)?;
    Ok(
        joined.kept.as_slice() == whole.kept.as_slice()
            && joined.own.len() == whole.own.len()
            && joined.rows.len() == whole.rows.len(),
    )
}

/// The kernel of a formula in one piece.
fn kernel(alloc: Global, f: &Formula) -> Result<MatchingResult, OutOfMemory> {
    let all = positions(alloc, f)?;
    matching_kernel(alloc, f, all.as_slice())
}

/// Reports how many of `count` drawn formulas have the same kernel in one piece.
fn tell_drawn(alloc: Global, count: u32, out: &mut String) -> Result<(), Fail> {
    let mut same = 0u32;
    for seed in 0..count {
        same = same.wrapping_add(u32::from(is_whole(alloc, seed)?));
    }
    writeln!(out, "= the same in {same} of {count}")?;
    Ok(())
}

/// Reports what a command asks for.
pub(crate) fn tell(alloc: Global, c: &Command<'_>, out: &mut String) -> Result<(), Fail> {
    match c.word {
        "kernel" => tell_kernel(alloc, c, out),
        "general" => tell_general(alloc, c, out),
        "drawn" => tell_drawn(alloc, c.first, out),
        _ => Ok(()),
    }
}
