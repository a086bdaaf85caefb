//! Single searches for one pair more.
ghost use Rattle.std.specs.Prelude.{◌≡◌, ◌-◌, ◌<◌, ◌≤◌, length, slice_index, IfSome, IsTrue};
ghost use Rattle.lk_model.specs.Lists.{among};
ghost use Rattle.lk_model.specs.Formulas.Lean.{are_positions};
ghost use Rattle.bipartite_match.specs.Matchings.{IsReady};
ghost use Rattle.bipartite_match.specs.Ways.{IsStart};

use crate::matchings::pairs;
use bipartite_match::{Matching, Start, Steps, augment};
use lk_model::Formula;
use lk_samples::number_of;
use std::alloc::Global;
use std::test::Fail;

/// The clause at a position, if it is unmatched.
fn clause_start(m: &Matching, position: u32) -> Option<Start>
    ensures { IfSome result (λ from. (from ≡ Start.Clause position) × IsTrue (among m.now.unmatched position)) }
{
    if m.unmatched.as_slice().contains(&position) {
        Some(Start::Clause(position))
    } else {
        None
    }
}

/// The variable of a number, if it is free.
fn variable_start(m: &Matching, v: u32) -> Option<Start>
    ensures { IfSome result (λ from. (from ≡ Start.Variable v) × (0 < v) × (v ≤ length m.now.of_var) ×
        (slice_index m.now.of_var (v - 1) ≡ 0)) }
{
    let of_var = m.of_var.as_slice();
    if v == 0 || v as usize > of_var.len() || of_var[v as usize - 1] != 0 {
        return None;
    }
    Some(Start::Variable(v))
}

/// The start that a word names, a position, or `v` and a variable, if it has no partner.
fn start_of(f: &Formula, part: &[u32], m: &Matching, word: &str) -> Option<Start>
    requires { IsReady f.now part.now m.now }
    ensures { IfSome result (IsStart f.now part.now m.now) }
{
    match word.strip_prefix("v") {
        Some(v) => variable_start(m, number_of(v)),
        None => clause_start(m, number_of(word)),
    }
}

/// Searches from the start that a word names. Writes whether the matching is greater then, and how many pairs it has.
fn tell_search(
    alloc: Global,
    f: &Formula,
    part: &[u32],
    m: &mut Matching,
    word: &str,
    out: &mut String,
) -> Result<(), Fail>
    requires positions { IsTrue (are_positions f.now part.now) }
    requires ready { IsReady f.now part.now m.old }
    ensures { IsReady f.now part.now m.new }
{
    let Some(from) = start_of(f, part, m, word) else {
        writeln!(out, "= {word}: no start")?;
        return Ok(());
    };
    let is_longer = augment(alloc, f, part, m, from, &mut Steps::new(()))?;
    writeln!(out, "= {word}: {is_longer}, {} pairs", pairs(m))?;
    Ok(())
}

/// Writes what searches from these starts find, one after the other, where no clause has a variable at first.
pub(crate) fn tell_searches(
    alloc: Global,
    f: &Formula,
    part: &[u32],
    starts: &str,
    out: &mut String,
) -> Result<(), Fail>
    requires { IsTrue (are_positions f.now part.now) }
{
    let mut m = Matching::none(alloc, f, part)?;
    for word in starts.split_whitespace() {
        tell_search(alloc, f, part, &mut m, word, out)?;
    }
    Ok(())
}
