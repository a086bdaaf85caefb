//! Runs the commands over texts in memory, as a script on standard input says, and prints what each run
//! returns and writes. The expected output was worked out by hand, or computed by plain programs in Python from
//! the definitions; `README.md` says which of the rows.
//!
//! A line `@ NAME` of the input chooses what the lines after it are: `commands`, as below, `verdicts` (`src/built.rt`),
//! `checks` (`src/checks.rt`) or `demos` (`src/demos.rt`). `#` begins a remark. A line of the last three is printed
//! again, and after it what is reported of it, in lines that begin with `=`; of documents the verdict of one worker,
//! with which those of two and of eight are compared.
//!
//! A line of `@ commands` is one of these:
//!
//! - `new`: no text is there, nothing fails, and bytes move in chunks of 8 and 16.
//! - `text NAME TEXT`: the text stands under that name. `\n` ends a line of it, `\r` is a return
//!   character.
//! - `shelf`, `out` or `say`, and then `chunk N`, how many bytes move at a time; `room N`, how many a sink
//!   takes; or `fails N..`, the numbers of the calls that fail.
//! - `run WORDS`: the commands run with these words.
//! - `calls WORDS`: the same, and it reports the calls on the shelf and the sinks, in their order, as below.
//! - `meet WORDS`: the same at a gate where halves of the work meet, which reports how often each entered.
//! - `keep NAME`: what the last run wrote stands under that name.
//! - `verdict WORDS`: the line that reports this verdict.
//!
//! Calls are reported as `start NAME`, and as `read`, `out` or `say` with how many bytes each call moved. One
//! that failed is reported as `failed`.
#![tactic(auto)]

mod built;
mod calls;
mod checks;
mod demos;
mod documents;
mod extending;
mod outside;
mod runs;
mod script;
mod verdicts;

use crate::runs::{print_calls, print_meeting, print_run};
use crate::script::Script;
use crate::verdicts::print_verdict;
use std::test::Fail;
use std::thread::Threads;

/// What lines are.
#[derive(Clone, Copy)]
enum Driver {
    Commands,
    Verdicts,
    Checks,
    Demos,
}

/// The driver of a name.
fn driver_of(name: &str) -> Driver {
    match name {
        "verdicts" => Driver::Verdicts,
        "checks" => Driver::Checks,
        "demos" => Driver::Demos,
        _ => Driver::Commands,
    }
}

/// Does what a line of the commands says.
fn take<R: Threads + Sync + AllocGlobal + Print>(
    rt: &R,
    script: &mut Script,
    line: &str,
) -> Result<(), Fail> {
    let (word, rest) = line.split_once(" ").unwrap_or((line, ""));
    match word {
        "run" => print_run(rt, script, rest),
        "calls" => print_calls(rt, script, rest),
        "meet" => print_meeting(rt, script, rest),
        "verdict" => print_verdict(rt, rest),
        _ => script.take(rt.alloc(), word, rest),
    }
}

/// Prints a line, and what is reported of it.
fn print_told<R: Threads + Sync + AllocGlobal + Print>(
    rt: &R,
    driver: Driver,
    line: &str,
) -> Result<(), Fail> {
    let mut out = String::new(rt.alloc());
    if !line.starts_with("#") && !line.starts_with("@") {
        match driver {
            Driver::Verdicts => built::tell(rt, rt.alloc(), line, &mut out)?,
            Driver::Checks => checks::tell(rt, rt.alloc(), line, &mut out)?,
            _ => demos::tell(rt.alloc(), line, &mut out)?,
        }
    }
    print!(rt; "{line}\n{out}")?;
    Ok(())
}

/// Does what the lines of the script say.
fn take_lines<R: Threads + Sync + AllocGlobal + Print + Input>(
    rt: &R,
    script: &mut Script,
) -> Result<(), Fail> {
    let mut driver = Driver::Commands;
    for line in rt.lines(rt.alloc()) {
        let line = line?;
        if let Some(name) = line.strip_prefix("@ ") {
            driver = driver_of(name);
        }
        match driver {
            Driver::Commands => take(rt, script, line.as_str())?,
            _ => print_told(rt, driver, line.as_str())?,
        }
    }
    Ok(())
}

fn main(rt: HostRuntime) -> Result<(), Fail> {
    let mut script = Script::new(rt.alloc());
    take_lines(&rt, &mut script)
}
