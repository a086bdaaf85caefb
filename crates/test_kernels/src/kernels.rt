//! Pure kernels, matchings and matching kernels, and deficiencies. The answers to `drawn` and `small` are those of
//! `bench/kernels.py`; the others can be worked out by hand.
//!
//! A line over a formula is `WORD N; CLAUSES; PART`: the number of variables, the clauses with commas
//! between them, and the positions of a part, or none for all. In a clause `A..B` stands for the literals
//! from A to B, 0 for none, and `CLAUSE * COUNT` for COUNT clauses, each over the variables after those
//! of the one before. The words are:
//!
//! - `pure`, for the pure kernel, and `order` for its order alone and how many clauses it keeps.
//! - `most`, for the number of pairs of a maximum matching and what alternating walks reach, `matching` for
//!   its variables and positions, and `walks` for what they reach, and the escapes and ranks of variables.
//! - `kernel`, for the matching kernel and its numbers of owners and rows, `owners` and `rows` for these.
//! - `deficiency`, for the maximal deficiency of the formula, the kernel, and the variables of clauses.
//! - `augment`, for single searches over the whole formula, where no clause has a variable at first. In place of a part it
//!   has starts, each the position of a clause, or `v` and a variable. It reports of each whether there is one pair
//!   more, and how many there are.
//! - `edits`, for clauses that come and go, where all clauses of the formula are live at first. In place of a part it has words
//!   with commas between them: `add L ..`, `remove NUMBER`, `kernel`, which reports the numbers of the matching kernel
//!   of the live clauses, and `memory`, which reports the stop without memory.
//!
//! `drawn N` reports the pure kernels of N drawn formulas, and `small` of all formulas of at most four clauses over
//! three variables, in the order of `small.rt`, the number of pairs, what walks reach, and what the matching kernel
//! keeps.
ghost use Rattle.std.specs.Prelude.{IsTrue};
ghost use Rattle.lk_model.specs.Formulas.Lean.{are_positions};

use crate::augments::tell_searches;
use crate::edits::tell_edits;
use crate::matchings::{tell_kernel, tell_matching};
use crate::pure::{tell_drawn, tell_pure};
use crate::small::tell_small;
use deficiency::{Deficiency, max_deficiency};
use lk_model::{Formula, OutOfMemory};
use lk_samples::{formula_of_text, number_of, part_of_text};
use std::alloc::{AllocError, Global};
use std::test::Fail;

fn put_deficiency(found: &Deficiency, out: &mut String) -> Result<(), AllocError> {
    let kept = found.kept.as_slice();
    let own = found.own.as_slice();
    writeln!(out, "= {}; kept {kept:?}; own {own:?}", found.value)
}

/// Writes the maximal deficiency of a formula, the kernel, and the variables of clauses.
fn tell_deficiency(alloc: Global, f: &Formula, out: &mut String) -> Result<(), OutOfMemory> {
    let found = max_deficiency(alloc, f)?;
    Ok(put_deficiency(&found, out)?)
}

/// Writes what is found of a part of a formula.
fn tell_part(
    alloc: Global,
    word: &str,
    f: &Formula,
    part: &[u32],
    out: &mut String,
) -> Result<(), OutOfMemory>
    requires { IsTrue (are_positions f.now part.now) }
{
    match word {
        "pure" => tell_pure(alloc, f, true, out),
        "order" => tell_pure(alloc, f, false, out),
        "most" | "matching" | "walks" => tell_matching(alloc, word, f, part, out),
        "deficiency" => tell_deficiency(alloc, f, out),
        _ => tell_kernel(alloc, word, f, part, out),
    }
}

/// Writes what is found of a formula, with a part or starts as text.
fn tell_of(
    alloc: Global,
    word: &str,
    f: &Formula,
    text: &str,
    out: &mut String,
) -> Result<(), Fail> {
    if word == "edits" {
        return tell_edits(alloc, f, text, out);
    }
    let is_search = word == "augment";
    let part = part_of_text(alloc, f, if is_search { "" } else { text })?;
    if is_search {
        return tell_searches(alloc, f, part.as_slice(), text, out);
    }
    Ok(tell_part(alloc, word, f, part.as_slice(), out)?)
}

/// Writes what is found of the formula that a text has.
fn tell_over(alloc: Global, word: &str, text: &str, out: &mut String) -> Result<(), Fail> {
    let (vars, text) = text.split_once(";").unwrap_or((text, ""));
    let (clauses, text) = text.split_once(";").unwrap_or((text, ""));
    let f = formula_of_text(alloc, number_of(vars), clauses)?;
    tell_of(alloc, word, &f, text, out)
}

/// Writes what a line asks for.
pub(crate) fn tell(alloc: Global, line: &str, out: &mut String) -> Result<(), Fail> {
    let (word, text) = line.split_once(" ").unwrap_or((line, ""));
    match word {
        "drawn" => tell_drawn(alloc, number_of(text), out),
        "small" => tell_small(alloc, out),
        _ => tell_over(alloc, word, text, out),
    }
}
