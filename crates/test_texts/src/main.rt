//! Asks the readers, the printers and the checks of texts, as a script on standard input says.
//!
//! `@ texts`, `@ reading`, `@ printing`, `@ answers` or `@ longest` says what the lines after it ask; their commands
//! are explained at the head of the files of these names. Each line is printed again, and after it stands what is
//! returned; a blank one, a head and a remark, which begins with `#`, have no answer.
//!
//! In a text `\n`, `\r`, `\t` and `\v` are the bytes 10, 13, 9 and 11, and `\s` is a blank at an end of the line.
//! `base TEXT` takes a text for the next lines.
#![tactic(auto)]

mod answers;
mod general;
mod kinds;
mod linear;
mod longest;
mod models;
mod printing;
mod reading;
mod spelled;
mod texts;
mod variants;

use crate::answers::take_formula;
use crate::kinds::Kind;
use lk_model::Formula;
use std::alloc::Global;
use std::test::Fail;

/// Writes what is returned for a line, for a formula and a text that earlier lines gave.
fn tell(
    alloc: Global,
    driver: &str,
    f: &Formula,
    base: &str,
    line: &str,
    out: &mut String,
) -> Result<(), Fail> {
    if line.is_empty() || line.starts_with("#") || line.starts_with("@") {
        return Ok(());
    }
    match driver {
        "@ texts" => Ok(texts::tell(alloc, base, line, out)?),
        "@ printing" => printing::tell(alloc, line, out),
        "@ longest" => longest::tell(alloc, line, out),
        "@ answers" => Ok(reading::tell(alloc, Kind::Answer(f), base, line, out)?),
        _ => Ok(reading::tell(alloc, Kind::Document, base, line, out)?),
    }
}

fn main(rt: HostRuntime) -> Result<(), Fail> {
    let mut driver = String::new(rt.alloc());
    let mut base = String::new(rt.alloc());
    let mut f = Formula::new(rt.alloc(), 0)?;
    for line in rt.lines(rt.alloc()) {
        let line = line?;
        if line.starts_with("@") {
            driver = String::from_str(rt.alloc(), line.as_str())?;
        }
        if let Some(text) = line.strip_prefix("base ") {
            base = String::from_str(rt.alloc(), text)?;
        }
        if driver.as_str() == "@ answers" {
            take_formula(rt.alloc(), line.as_str(), &mut f)?;
        }
        let mut told = String::new(rt.alloc());
        tell(
            rt.alloc(),
            driver.as_str(),
            &f,
            base.as_str(),
            line.as_str(),
            &mut told,
        )?;
        print!(rt; "{line}\n{told}")?;
    }
    Ok(())
}
