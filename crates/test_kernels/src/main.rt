//! Tests of the kernels of pure literals, of matchings and of linear autarkies, of what they stand on, and of edits.
//!
//! A line `@ NAME` of the input chooses the driver of the lines after it: `kernels`, `rows` or `linear`, each described
//! at the head of its file. Each line is printed again, and after it what is reported of it, in lines that begin with
//! `=`. A line that begins with `#` is a remark.
#![tactic(auto)]

mod augments;
mod drawn;
mod edits;
mod kernels;
mod linear;
mod matchings;
mod pure;
mod ranges;
mod rows;
mod runs;
mod small;
mod telling;

use std::alloc::Global;
use std::test::Fail;

/// Which driver the lines are for.
#[derive(Clone, Copy)]
enum Driver {
    Kernels,
    Rows,
    Linear,
}

/// The driver of a name.
fn driver_of(name: &str) -> Driver {
    match name {
        "rows" => Driver::Rows,
        "linear" => Driver::Linear,
        _ => Driver::Kernels,
    }
}

/// Writes what a driver reports of a line.
fn tell(alloc: Global, driver: Driver, line: &str, out: &mut String) -> Result<(), Fail> {
    match driver {
        Driver::Kernels => kernels::tell(alloc, line, out),
        Driver::Rows => rows::tell(alloc, line, out),
        Driver::Linear => linear::tell(alloc, line, out),
    }
}

/// Prints a line, and what the driver reports of it.
fn print_line(rt: &HostRuntime, driver: Driver, line: &str) -> Result<(), Fail> {
    let mut out = String::new(rt.alloc());
    if !line.starts_with("#") && !line.starts_with("@") {
        tell(rt.alloc(), driver, line, &mut out)?;
    }
    print!(rt; "{line}\n{out}")?;
    Ok(())
}

fn main(rt: HostRuntime) -> Result<(), Fail> {
    let mut driver = Driver::Kernels;
    for line in rt.lines(rt.alloc()) {
        let line = line?;
        if let Some(name) = line.as_str().strip_prefix("@ ") {
            driver = driver_of(name);
        }
        print_line(&rt, driver, line.as_str())?;
    }
    Ok(())
}
