//! Tests of the search for general kernels, floor by floor: chains and logs, unit propagation, clause learning with its
//! orders of variables, general kernels, and the program's answers for files.
//!
//! A line `@ NAME` of the input chooses the driver of the lines after it: `chains`, `watches`, `learning`, `general` or
//! `sizes`, each described at the head of its file. Each line is printed again, and after it what is reported of it. A
//! line that begins with `#` is a remark.
#![tactic(auto)]

mod answers;
mod asked;
mod asking;
mod built;
mod chains;
mod clauses;
mod drawn;
mod edges;
mod general;
mod learning;
mod left;
mod moves;
mod sizes;
mod starts;
mod texts;
mod watches;
mod words;

use std::test::Fail;

/// Which driver the lines are for.
#[derive(Clone, Copy)]
enum Driver {
    Chains,
    Watches,
    Learning,
    General,
    Sizes,
}

/// The driver of a name.
fn driver_of(name: &str) -> Driver {
    match name {
        "chains" => Driver::Chains,
        "watches" => Driver::Watches,
        "learning" => Driver::Learning,
        "sizes" => Driver::Sizes,
        _ => Driver::General,
    }
}

/// Writes what a driver reports of a line.
fn tell(rt: &HostRuntime, driver: Driver, line: &str, out: &mut String) -> Result<(), Fail> {
    match driver {
        Driver::Chains => chains::tell(rt.alloc(), line, out),
        Driver::Watches => watches::tell(rt.alloc(), line, out),
        Driver::Learning => learning::tell(rt.alloc(), line, out),
        Driver::General => general::tell(rt.alloc(), line, out),
        Driver::Sizes => sizes::tell(rt, line, out),
    }
}

/// Prints a line, and what the driver reports of it.
fn print_line(rt: &HostRuntime, driver: Driver, line: &str) -> Result<(), Fail> {
    let mut out = String::new(rt.alloc());
    if !line.starts_with("#") && !line.starts_with("@") {
        tell(rt, driver, line, &mut out)?;
    }
    print!(rt; "{line}\n{out}")?;
    Ok(())
}

fn main(rt: HostRuntime) -> Result<(), Fail> {
    let mut driver = Driver::General;
    for line in rt.lines(rt.alloc()) {
        let line = line?;
        if let Some(name) = line.as_str().strip_prefix("@ ") {
            driver = driver_of(name);
        }
        print_line(&rt, driver, line.as_str())?;
    }
    Ok(())
}
