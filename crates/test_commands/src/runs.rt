//! Runs of the commands, and what they leave.
use crate::calls::Calls;
use crate::outside::{Outside, outside_of};
use crate::script::Script;
use lk_model::OutOfMemory;
use lk_outside::{Gate, OpenGate};
use lk_samples::Meeting;
use std::alloc::{AllocError, Global};
use std::io::{self, Write};
use std::test::Fail;
use std::thread::Threads;
use workbench::run;

/// Runs the commands over the shelf and the sinks that a script has, and prints the words, the status,
/// what was written and, after a line `-- said`, what was said.
pub(crate) fn print_run<R: Threads + Sync + AllocGlobal + Print>(
    rt: &R,
    script: &mut Script,
    line: &str,
) -> Result<(), Fail> {
    let calls = Calls::new(rt.alloc());
    print_over(rt, script, line, &calls, &OpenGate)
}

/// As `print_run`, and after a line `-- calls` the calls on the shelf and the sinks.
pub(crate) fn print_calls<R: Threads + Sync + AllocGlobal + Print>(
    rt: &R,
    script: &mut Script,
    line: &str,
) -> Result<(), Fail> {
    let calls = Calls::new(rt.alloc());
    print_over(rt, script, line, &calls, &OpenGate)?;
    calls.print(rt)
}

/// As `print_run` at a gate that holds a half of the work each time until the other one has entered as often, and
/// how often each has entered and whether it met the other each time.
pub(crate) fn print_meeting<R: Threads + Sync + AllocGlobal + Print>(
    rt: &R,
    script: &mut Script,
    line: &str,
) -> Result<(), Fail> {
    let calls = Calls::new(rt.alloc());
    let gate = Meeting::new();
    print_over(rt, script, line, &calls, &gate)?;
    println!(rt; "-- entered {:?}; met {:?}", gate.times(), gate.met())?;
    Ok(())
}

fn print_over<R: Threads + Sync + AllocGlobal + Print, G: Gate>(
    rt: &R,
    script: &mut Script,
    line: &str,
    calls: &Calls,
    gate: &G,
) -> Result<(), Fail> {
    let mut outside = outside_of(rt.alloc(), script, calls)?;
    print_within(rt, line, &mut outside, &mut script.written, gate)
}

/// Runs the commands with the words of a line, prints what they leave, and holds what was written.
fn print_within<R: Threads + Sync + AllocGlobal + Print, G: Gate>(
    rt: &R,
    line: &str,
    outside: &mut Outside<'_>,
    written: &mut Vec<u8>,
    gate: &G,
) -> Result<(), Fail> {
    let status = run_line(rt, line, outside, gate)?;
    print_left(rt, line, status, outside)?;
    Ok(replace(written, outside.out.bytes())?)
}

/// Puts bytes in the place of others.
fn replace(held: &mut Vec<u8>, bytes: &[u8]) -> Result<(), AllocError> {
    held.clear();
    held.extend_from_slice(bytes)
}

/// Runs the commands with the words of a line.
fn run_line<R: Threads + Sync + AllocGlobal, G: Gate>(
    rt: &R,
    line: &str,
    outside: &mut Outside<'_>,
    gate: &G,
) -> Result<u8, OutOfMemory> {
    let words: Vec<&str> = line.split_whitespace().collect(rt.alloc())?;
    Ok(run_over(rt, rt.alloc(), words.as_slice(), outside, gate))
}

fn run_over<R: Threads + Sync, G: Gate>(
    rt: &R,
    alloc: Global,
    words: &[&str],
    outside: &mut Outside<'_>,
    gate: &G,
) -> u8 {
    run(
        rt,
        alloc,
        words,
        &mut outside.shelf,
        &mut outside.out,
        &mut outside.say,
        gate,
    )
}

/// Prints the words, the status, and what was written and said.
fn print_left<R: Print>(rt: &R, line: &str, status: u8, outside: &Outside<'_>) -> io::Result<()> {
    println!(rt; "== {line}\nstatus {status}")?;
    io::writer(rt).write_all(outside.out.bytes())?;
    println!(rt; "-- said")?;
    io::writer(rt).write_all(outside.say.bytes())
}
