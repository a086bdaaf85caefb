//! Numbers with their indices added, in halves.
ghost use Rattle.std.specs.Prelude.{◌≡◌, ◌+◌, ◌<◌, ◌≤◌, ◌^◌, ℕ, length, slice_index, IfOk};

use crate::command::Command;
use lk_model::{List, OutOfMemory};
use lk_outside::OpenGate;
use lk_samples::{FirstItem, Meeting, numbers_of_text};
use par_parts::{Gate, map_halves};
use std::alloc::Global;
use std::sync::atomic::Ordering;
use std::test::Fail;
use std::thread::Threads;

/// Each number with its index added.
fn with_index<R: Threads + Sync, G: Gate>(
    rt: &R,
    alloc: Global,
    gate: &G,
    numbers: &[u32],
    workers: u32,
) -> Result<List<u64>, OutOfMemory>
    requires few { length numbers.now < 2 ^ 32 }
    requires workers { 1 ≤ workers }
    ensures { IfOk result (λ us. (i : ℕ) → i < length numbers.now → slice_index us i ≡ slice_index numbers.now i + i) }
{
    map_halves(
        rt,
        alloc,
        gate,
        numbers,
        workers,
        &|i, x| u64::from(*x) + i as u64,
    )
}

/// Reports whether half 1 waits for the first number.
fn tell_sides<R: Threads + Sync>(
    rt: &R,
    alloc: Global,
    numbers: &[u32],
    workers: u32,
    out: &mut String,
) -> Result<(), Fail>
    requires { 1 ≤ workers }
{
    let gate = FirstItem::new();
    let same = map_halves(
        rt,
        alloc,
        &gate,
        numbers,
        workers,
        &|i, x: &u32| {
            if i == 0 {
                gate.is_done.store(true, Ordering::SeqCst);
            }
            *x
        },
    )?;
    let seen = gate.was_seen.load(Ordering::SeqCst);
    writeln!(out, "= {:?}; seen {seen}", same.as_slice())?;
    Ok(())
}

/// Reports the numbers with their indices, and whether the halves meet at a gate.
fn tell_meeting<R: Threads + Sync>(
    rt: &R,
    alloc: Global,
    numbers: &[u32],
    workers: u32,
    out: &mut String,
) -> Result<(), Fail>
    requires few { length numbers.now < 2 ^ 32 }
    requires workers { 1 ≤ workers }
{
    let gate = Meeting::new();
    let sums = with_index(rt, alloc, &gate, numbers, workers)?;
    let (times, met) = (gate.times(), gate.met());
    writeln!(
        out,
        "= {:?}; entered {times:?}; met {met:?}",
        sums.as_slice()
    )?;
    Ok(())
}

/// Reports the numbers with their indices.
fn tell_sums<R: Threads + Sync>(
    rt: &R,
    alloc: Global,
    numbers: &[u32],
    workers: u32,
    out: &mut String,
) -> Result<(), Fail>
    requires few { length numbers.now < 2 ^ 32 }
    requires workers { 1 ≤ workers }
{
    let sums = with_index(rt, alloc, &OpenGate, numbers, workers)?;
    writeln!(out, "= {:?}", sums.as_slice())?;
    Ok(())
}

/// Reports the numbers of a text with their indices, and of `meet` whether the halves meet at a gate.
pub(crate) fn tell_halves<R: Threads + Sync>(
    rt: &R,
    alloc: Global,
    c: &Command<'_>,
    out: &mut String,
) -> Result<(), Fail> {
    let numbers = numbers_of_text(alloc, c.text)?;
    if c.first == 0 || numbers.len() > 1000 {
        return Err(Fail::from("no workers, or too many numbers"));
    }
    match c.word {
        "sides" => tell_sides(rt, alloc, &numbers, c.first, out),
        "halves" => tell_sums(rt, alloc, &numbers, c.first, out),
        _ => tell_meeting(rt, alloc, &numbers, c.first, out),
    }
}
