//! Clauses that come and go, with the matching kernel of those that are live.
ghost use Rattle.std.specs.Prelude.{◌≡◌};

use bipartite_match::Steps;
use lk_model::{Formula, OutOfMemory};
use lk_samples::{literals_of_text, makes_clause, number_of};
use match_edits::{EditStop, Live};
use std::alloc::{AllocError, Global};
use std::test::Fail;

/// Adds the clause that a text has, and writes its number, or why it is not added.
fn tell_added(
    alloc: Global,
    live: &mut Live,
    vars: u32,
    text: &str,
    out: &mut String,
) -> Result<(), Fail>
    requires { live.old.held.vars ≡ vars }
    ensures { live.new.held.vars ≡ vars }
{
    let lits = literals_of_text(alloc, text)?;
    if !makes_clause(vars, lits.as_slice()) {
        return Err(Fail::from("no clause"));
    }
    let added = live.add(alloc, lits.as_slice(), &mut Steps::new(()));
    Ok(writeln!(out, "= add {added:?}")?)
}

/// Removes the clause of a number, and writes whether it was there.
fn tell_removed(
    alloc: Global,
    live: &mut Live,
    vars: u32,
    number: u32,
    out: &mut String,
) -> Result<(), AllocError>
    requires { live.old.held.vars ≡ vars }
    ensures { live.new.held.vars ≡ vars }
{
    let removed = live.remove(alloc, number, &mut Steps::new(()));
    writeln!(out, "= remove {removed:?}")
}

/// Writes the numbers of the kernel.
fn tell_kernel(alloc: Global, live: &Live, out: &mut String) -> Result<(), OutOfMemory> {
    let kept = live.kernel(alloc)?;
    Ok(writeln!(out, "= kernel {:?}", kept.as_slice())?)
}

/// Does what a word says, and writes what is returned.
fn tell_word(
    alloc: Global,
    live: &mut Live,
    vars: u32,
    text: &str,
    out: &mut String,
) -> Result<(), Fail>
    requires { live.old.held.vars ≡ vars }
    ensures { live.new.held.vars ≡ vars }
{
    let (word, text) = text.split_once(" ").unwrap_or((text, ""));
    match word {
        "add" => tell_added(alloc, live, vars, text, out),
        "remove" => Ok(tell_removed(alloc, live, vars, number_of(text), out)?),
        "memory" => Ok(writeln!(out, "= memory {:?}", EditStop::from(OutOfMemory))?),
        _ => Ok(tell_kernel(alloc, live, out)?),
    }
}

/// Does what the words of a text say, with commas between them, where all clauses of a formula are live at first.
pub(crate) fn tell_edits(
    alloc: Global,
    f: &Formula,
    words: &str,
    out: &mut String,
) -> Result<(), Fail> {
    let mut live = Live::of(alloc, f)?;
    for word in words.split(",") {
        tell_word(alloc, &mut live, f.vars(), word.trim(), out)?;
    }
    Ok(())
}
