//! What the run leaves: the kept positions, and a pair for each of their variables.
ghost use Rattle.std.specs.Prelude.{◌≡◌, ◌≤◌, ◌<◌, length, filter, find, None, IfOk, All};
ghost use Rattle.lk_model.specs.Lists.{up_to};
ghost use Rattle.lk_model.specs.Formulas.Formula.{positions_of};
ghost use Rattle.lk_model.specs.Formulas.PureRun.{least_pure, least_pairs};
ghost use Rattle.occurrence_lists.specs.Occurrences.{AreOccurrences};
ghost use Rattle.pure_strip.specs.Live.{is_live};

use lk_model::{Formula, List, Lit, OutOfMemory, Pair};
use occurrence_lists::OccurrenceLists;
use std::alloc::Global;

/// The positions whose flags are up, ascending.
pub(crate) fn live_positions(alloc: Global, live: &[bool]) -> Result<List<u32>, OutOfMemory>
    requires { length live.now ≤ 4000000 }
    ensures { IfOk result (λ kept. kept ≡ filter (is_live live.now) (up_to (length live.now))) }
{
    let mut kept = List::new(alloc);
    for (i, up) in live.iter().enumerate() {
        if *up {
            kept.push(i as u32 + 1)?;
        }
    }
    Ok(kept)
}

/// For each variable that occurs in the live clauses the least of them with each of its literals.
/// Each such variable occurs in both signs.
pub(crate) fn pairs_of(
    alloc: Global,
    f: &Formula,
    holders: &OccurrenceLists,
    live: &[bool],
) -> Result<List<Pair>, OutOfMemory>
    requires holders { AreOccurrences f.now holders.now }
    requires size { length live.now ≡ length f.now.clauses }
    requires lean { least_pure f.now (filter (is_live live.now) (positions_of f.now)) ≡ None }
    ensures { IfOk result (λ pairs. pairs ≡ least_pairs f.now (filter (is_live live.now) (positions_of f.now))) }
{
    let mut pairs = List::new(alloc);
    for i in 0..f.vars() {
        let var = i + 1;
        let Some(l) = Lit::new(var as i32) else {
            unreachable!()
        };
        if let Some(with) = first_live(holders.positions(l), live) {
            if let Some(against) = first_live(holders.positions(l.negated()), live) {
                pairs.push(Pair { var, with, against })?;
            }
        }
    }
    Ok(pairs)
}

/// The first of the positions whose flag is up.
fn first_live(positions: &[u32], live: &[bool]) -> Option<u32>
    requires { All (λ p. (0 < p) × (p ≤ length live.now)) positions.now }
    ensures { result ≡ find (is_live live.now) positions.now }
{
    for p in positions {
        if live[*p as usize - 1] {
            return Some(*p);
        }
    }
    None
}
