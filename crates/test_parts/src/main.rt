//! Finds the parts of formulas, kernels by parts, models, refutations and cores, works on lists in halves, joins results,
//! and prints what comes out. Expected answers were made from the definitions by programs in other languages that try
//! all choices, or worked out by hand; chains too. The rest is compared with plain programs, or with what one worker finds
//! in the whole formula.
//!
//! Standard input has four scripts, one after another. The head line of each names the driver of its lines:
//! `@ parts` (`src/parts.rt`), `@ composing` (`src/composing.rt`), `@ solve` (`src/solving.rt`) and `@ mus`
//! (`src/cores.rt`), where its commands are described.
//!
//! A line is a command. It is printed again, and after it stand the answers, in lines that begin with `=`. A line that
//! begins with `#` is a remark. A formula is the number of its variables, and its clauses with commas between them, 0 for
//! an empty one.
#![tactic(auto)]

mod alone;
mod answers;
mod built;
mod command;
mod composing;
mod cores;
mod deciding;
mod found;
mod given;
mod halves;
mod joinable;
mod joining;
mod judging;
mod lines;
mod lists;
mod parts;
mod solving;
mod tested;
mod workers;

use crate::command::command_of;
use std::alloc::Global;
use std::test::Fail;
use std::thread::Threads;

/// Which driver the lines of a script are for.
#[derive(Clone, Copy)]
enum Driver {
    Parts,
    Composing,
    Solve,
    Mus,
}

/// The driver that a head line names.
fn driver_of(line: &str) -> Option<Driver> {
    match line {
        "@ parts" => Some(Driver::Parts),
        "@ composing" => Some(Driver::Composing),
        "@ solve" => Some(Driver::Solve),
        "@ mus" => Some(Driver::Mus),
        _ => None,
    }
}

/// Writes what the command of a line finds.
fn tell<R: Threads + Sync>(
    rt: &R,
    alloc: Global,
    driver: Driver,
    line: &str,
    out: &mut String,
) -> Result<(), Fail> {
    let c = command_of(line);
    match driver {
        Driver::Parts => parts::tell(rt, alloc, &c, out),
        Driver::Composing => composing::tell(alloc, &c, out),
        Driver::Solve => solving::tell(rt, alloc, &c, out),
        Driver::Mus => cores::tell(rt, alloc, &c, out),
    }
}

fn main(rt: HostRuntime) -> Result<(), Fail> {
    let mut driver = Driver::Parts;
    for line in rt.lines(rt.alloc()) {
        let line = line?;
        let mut out = String::new(rt.alloc());
        match driver_of(line.as_str()) {
            Some(named) => driver = named,
            None => tell(&rt, rt.alloc(), driver, line.as_str(), &mut out)?,
        }
        print!(rt; "{line}\n{out}")?;
    }
    Ok(())
}
