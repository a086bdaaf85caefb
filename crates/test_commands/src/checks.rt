//! `@ checks`: documents that are texts. The expected verdicts are those of another program, which goes by the tables of the format
//! and through the whole formula for each place.
//!
//! A line has the number of variables of a formula, its clauses with commas between them, and the text of a
//! document with `\n` for the end of each line; semicolons stand between the three.
//!
//! Where `meet` stands before it, two workers check with a gate that holds a half each time until the other one has
//! entered as often, and a second line reports how often each entered, and whether it met the other one each time. Two
//! more lines report it of eight workers.
use crate::documents::tell_text;
use lk_samples::{formula_of_text, number_of};
use std::alloc::Global;
use std::test::Fail;
use std::thread::Threads;

/// Reports the verdict on the document of a line.
pub(crate) fn tell<R: Threads + Sync>(
    rt: &R,
    alloc: Global,
    line: &str,
    out: &mut String,
) -> Result<(), Fail> {
    let (meets, parts) = match line.strip_prefix("meet ") {
        Some(parts) => (true, parts),
        None => (false, line),
    };
    let (vars, parts) = parts.split_once("; ").unwrap_or((parts, ""));
    let (clauses, document) = parts.split_once("; ").unwrap_or((parts, ""));
    let f = formula_of_text(alloc, number_of(vars), clauses)?;
    let text = document.replace(alloc, "\\n", "\n")?;
    tell_text(rt, alloc, meets, &f, text.as_str(), out)
}
