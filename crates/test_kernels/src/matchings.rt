//! Matchings and matching kernels.
ghost use Rattle.std.specs.Prelude.{IsTrue};
ghost use Rattle.lk_model.specs.Formulas.Lean.{are_positions};
ghost use Rattle.bipartite_match.specs.Matchings.{IsMaximum};

use bipartite_match::{Matching, Reached, maximum, reach};
use lk_model::{Formula, MatchRow, MatchingResult, OutOfMemory};
use matching_kernel::matching_kernel;
use std::alloc::{AllocError, Global};

/// How many clauses have a variable.
pub(crate) fn pairs(m: &Matching) -> usize {
    let mut count = 0usize;
    for v in m.of_clause.as_slice() {
        if *v != 0 {
            count = count.saturating_add(1);
        }
    }
    count
}

/// Writes a matching, or what alternating walks reach.
fn put_reached(word: &str, m: &Matching, r: &Reached, out: &mut String) -> Result<(), AllocError> {
    let (kept, escape, rank) = (r.kept.as_slice(), r.escape.as_slice(), r.rank.as_slice());
    let (of_clause, of_var) = (m.of_clause.as_slice(), m.of_var.as_slice());
    match word {
        "matching" => writeln!(out, "= variables {of_clause:?}; positions {of_var:?}"),
        "walks" => writeln!(out, "= kept {kept:?}; escapes {escape:?}; ranks {rank:?}"),
        _ => writeln!(out, "= {} pairs; kept {kept:?}", pairs(m)),
    }
}

fn tell_reached(
    alloc: Global,
    word: &str,
    f: &Formula,
    part: &[u32],
    m: &Matching,
    out: &mut String,
) -> Result<(), OutOfMemory>
    requires positions { IsTrue (are_positions f.now part.now) }
    requires maximum { IsMaximum f.now part.now m.now }
{
    let r = reach(alloc, f, part, m)?;
    Ok(put_reached(word, m, &r, out)?)
}

/// Writes a maximum matching of a part, or what alternating walks reach.
pub(crate) fn tell_matching(
    alloc: Global,
    word: &str,
    f: &Formula,
    part: &[u32],
    out: &mut String,
) -> Result<(), OutOfMemory>
    requires { IsTrue (are_positions f.now part.now) }
{
    let m = maximum(alloc, f, part)?;
    tell_reached(alloc, word, f, part, &m, out)
}

/// Writes a row with its two positions ascending.
fn put_row(row: &MatchRow, out: &mut String) -> Result<(), AllocError> {
    let low = row.own.min(row.escape);
    let high = row.own.max(row.escape);
    writeln!(
        out,
        "= {} at {low} and {high} with rank {}",
        row.var, row.rank
    )
}

fn put_rows(rows: &[MatchRow], out: &mut String) -> Result<(), AllocError> {
    for row in rows {
        put_row(row, out)?;
    }
    Ok(())
}

fn put_kernel(word: &str, k: &MatchingResult, out: &mut String) -> Result<(), AllocError> {
    let (kept, own, rows) = (k.kept.as_slice(), k.own.as_slice(), k.rows.as_slice());
    match word {
        "rows" => put_rows(rows, out),
        "owners" => writeln!(out, "= {own:?}"),
        _ => writeln!(
            out,
            "= kept {kept:?}; {} owners; {} rows",
            own.len(),
            rows.len()
        ),
    }
}

/// Writes the matching kernel of a part.
pub(crate) fn tell_kernel(
    alloc: Global,
    word: &str,
    f: &Formula,
    part: &[u32],
    out: &mut String,
) -> Result<(), OutOfMemory>
    requires { IsTrue (are_positions f.now part.now) }
{
    let k = matching_kernel(alloc, f, part)?;
    Ok(put_kernel(word, &k, out)?)
}
