//! What is found by one worker and by more.
ghost use Rattle.std.specs.Prelude.{◌≤◌};

use crate::alone::counts;
use crate::command::{Command, budget_of, formula};
use crate::found::{Search, found, put_found};
use crate::lines::put_sizes;
use lk_model::{Formula, OutOfMemory};
use lk_outside::OpenGate;
use lk_samples::Meeting;
use part_kernels::{general_by_parts, matching_by_parts};
use std::alloc::{AllocError, Global};
use std::test::Fail;
use std::thread::Threads;

/// What a command looks for in its formula.
fn search_of<'a>(c: &Command<'_>, formula: &'a Formula) -> Search<'a> {
    let way = match c.word {
        "kernel" | "workers" | "fours" | "pairs" | "one" | "two" | "beside" => "matching",
        "general" | "general-workers" | "squares" => "general",
        "told" => "solution",
        _ => "judged",
    };
    let conflicts = if way == "matching" { 1 } else { c.second };
    Search {
        way,
        formula,
        conflicts,
    }
}

/// Whether each of these numbers of workers finds what one worker finds.
fn is_same<R: Threads + Sync>(
    rt: &R,
    alloc: Global,
    s: &Search<'_>,
    first: &str,
    numbers: &[u32],
) -> Result<bool, Fail> {
    for workers in numbers {
        if found(rt, alloc, s, *workers)?.as_str() != first {
            return Ok(false);
        }
    }
    Ok(true)
}

/// What one worker finds, and whether each of these numbers of workers finds the same.
fn first_of<R: Threads + Sync>(
    rt: &R,
    alloc: Global,
    s: &Search<'_>,
    numbers: &[u32],
) -> Result<(String, bool), Fail> {
    let first = found(rt, alloc, s, 1)?;
    let same = is_same(rt, alloc, s, first.as_str(), numbers)?;
    Ok((first, same))
}

/// Which numbers of workers are tried beside one, and how that is reported.
fn others_of(word: &str) -> (&'static [u32], &'static str) {
    match word {
        "kernel" => (&[2, 3, 8, 64], "; the same"),
        "general" => (&[2, 3, 8], "= the same"),
        "told" => (&[2, 3], "= the same by 2 and 3 workers"),
        _ => (&[2, 3], "; the same by 2 and 3 workers"),
    }
}

/// Reports what one worker finds, and whether others find the same.
pub(crate) fn tell_same<R: Threads + Sync>(
    rt: &R,
    alloc: Global,
    c: &Command<'_>,
    out: &mut String,
) -> Result<(), Fail> {
    let f = formula(alloc, c)?;
    put_same(rt, alloc, c.word, &search_of(c, &f), out)
}

fn put_same<R: Threads + Sync>(
    rt: &R,
    alloc: Global,
    word: &str,
    s: &Search<'_>,
    out: &mut String,
) -> Result<(), Fail> {
    let (numbers, end) = others_of(word);
    let (first, same) = first_of(rt, alloc, s, numbers)?;
    writeln!(out, "{first}{end} {same}")?;
    Ok(())
}

/// Reports how many clauses of a built formula are kept, whether any number of workers keeps the same, and whether the
/// halves of one, two and 64 meet at a gate.
pub(crate) fn tell_built<R: Threads + Sync>(
    rt: &R,
    alloc: Global,
    c: &Command<'_>,
    out: &mut String,
) -> Result<(), Fail> {
    let f = formula(alloc, c)?;
    put_kept(rt, alloc, &search_of(c, &f), out)?;
    put_entered(rt, alloc, &f, 1, out)?;
    put_entered(rt, alloc, &f, 2, out)?;
    put_entered(rt, alloc, &f, 64, out)
}

fn put_kept<R: Threads + Sync>(
    rt: &R,
    alloc: Global,
    s: &Search<'_>,
    out: &mut String,
) -> Result<(), Fail> {
    let kept = kept_count(rt, alloc, s.formula)?;
    let same = first_of(rt, alloc, s, &[2, 3, 8, 64])?.1;
    writeln!(out, "= {kept} of {}; the same {same}", s.formula.len())?;
    Ok(())
}

/// Writes whether the halves of this many workers meet at a gate.
fn put_entered<R: Threads + Sync>(
    rt: &R,
    alloc: Global,
    f: &Formula,
    workers: u32,
    out: &mut String,
) -> Result<(), Fail>
    requires { 1 ≤ workers }
{
    let gate = Meeting::new();
    matching_by_parts(rt, alloc, &gate, f, workers)?;
    write!(out, "= workers {workers}")?;
    Ok(put_gate(&gate, false, out)?)
}

/// How many clauses one worker keeps.
fn kept_count<R: Threads + Sync>(rt: &R, alloc: Global, f: &Formula) -> Result<usize, OutOfMemory> {
    Ok(matching_by_parts(rt, alloc, &OpenGate, f, 1)?.kept.len())
}

/// Reports of the parts of four clauses how much is kept and by how many rounds and steps, whether two workers find the
/// same, and for one part of each 20 whether the same is found in the whole formula.
pub(crate) fn tell_squares<R: Threads + Sync>(
    rt: &R,
    alloc: Global,
    c: &Command<'_>,
    out: &mut String,
) -> Result<(), Fail> {
    let f = formula(alloc, c)?;
    put_squares(rt, alloc, c, &search_of(c, &f), out)
}

fn put_squares<R: Threads + Sync>(
    rt: &R,
    alloc: Global,
    c: &Command<'_>,
    s: &Search<'_>,
    out: &mut String,
) -> Result<(), Fail> {
    put_kernel_sizes(rt, alloc, s, out)?;
    let same = first_of(rt, alloc, s, &[2])?.1;
    let (parts, alike) = counts(alloc, c, s.formula, 20)?;
    writeln!(
        out,
        "= two workers the same {same}; alone the same in {alike} of {parts}"
    )?;
    Ok(())
}

/// Writes how much one worker keeps, and by how many rounds and steps.
fn put_kernel_sizes<R: Threads + Sync>(
    rt: &R,
    alloc: Global,
    s: &Search<'_>,
    out: &mut String,
) -> Result<(), Fail> {
    let budget = budget_of(s.conflicts)?;
    let general = general_by_parts(rt, alloc, &OpenGate, s.formula, budget, 1)?;
    Ok(put_sizes(general, out)?)
}

/// Reports what this many workers find, and whether their halves meet at a gate; of `gate` how often each met the
/// other.
pub(crate) fn tell_met<R: Threads + Sync>(
    rt: &R,
    alloc: Global,
    c: &Command<'_>,
    workers: u32,
    out: &mut String,
) -> Result<(), Fail> {
    let f = formula(alloc, c)?;
    let gate = Meeting::new();
    put_found(rt, alloc, &gate, &search_of(c, &f), workers, out)?;
    Ok(put_gate(&gate, c.word == "gate", out)?)
}

fn put_gate(gate: &Meeting, counts: bool, out: &mut String) -> Result<(), AllocError> {
    let front = if out.ends_with("\n") { "= " } else { "; " };
    write!(out, "{front}entered {:?}; met ", gate.times())?;
    if counts {
        writeln!(out, "{:?}", gate.times_met())
    } else {
        writeln!(out, "{:?}", gate.met())
    }
}
