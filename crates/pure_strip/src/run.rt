//! The pure run.
//!
//! The rule of pure literals (Davis and Putnam, "A Computing Procedure for Quantification Theory", 1960), again and
//! again: a literal whose complement occurs nowhere is made true, and the clauses that it touches go.
//!
//! Here the least variable is taken each time, so the order is determined. Each clause knows whether it was touched,
//! each literal how many untouched clauses contain it. The variables are gone through once, and one that is left in one
//! sign after it was passed waits in a heap (`counts`): no step goes through the formula.
ghost use Rattle.std.specs.Prelude.{◌≡◌, ◌<◌, ◌≤◌, [], length, replicate, slice_set, true, false, IfOk, OnOk, IsTrue};
ghost use Rattle.std.specs.Prelude.{All, ◌-◌, ◌+◌, ◌*◌};
ghost use Rattle.lk_model.specs.Formulas.Literal.{is_clause};
ghost use Rattle.lk_model.specs.Formulas.PureRun.{IsPureRun};
ghost use Rattle.occurrence_lists.specs.Occurrences.{AreOccurrences};
ghost use Rattle.pure_strip.specs.Counted.{AreHeld, LowersAll};
ghost use Rattle.pure_strip.specs.Live.{AreCounted, AreUntouched, GoDown};

use crate::counts::Counts;
use lk_model::{Formula, List, Lit, OutOfMemory};
use occurrence_lists::OccurrenceLists;
use std::alloc::Global;

/// The order of the pure run. The flags, which are all up at first, end as those of the clauses that no
/// literal of the order touches.
pub(crate) fn pure_order(
    alloc: Global,
    f: &Formula,
    holders: &OccurrenceLists,
    live: &mut Vec<bool>,
) -> Result<List<Lit>, OutOfMemory>
    requires holders { AreOccurrences f.now holders.now }
    requires live { live.old.items ≡ replicate (length f.now.clauses) true }
    ensures run { IfOk result (IsPureRun f.now) }
    ensures untouched { IfOk result (λ order. AreUntouched f.now order live.new.items) }
{
    let lengths = holders.counts(alloc)?;
    let mut counts = Counts::new(alloc, f.vars(), lengths);
    order_by(alloc, f, holders, live, &mut counts)
}

/// The order by the counts of the clauses whose flags are up.
fn order_by(
    alloc: Global,
    f: &Formula,
    holders: &OccurrenceLists,
    live: &mut Vec<bool>,
    counts: &mut Counts,
) -> Result<List<Lit>, OutOfMemory>
    requires holders { AreOccurrences f.now holders.now }
    requires counted { AreCounted f.now live.old.items counts.old }
    requires untouched { AreUntouched f.now [] live.old.items }
    ensures run { IfOk result (IsPureRun f.now) }
    ensures untouched { IfOk result (λ order. AreUntouched f.now order live.new.items) }
{
    let mut order = List::new(alloc);
    while let Some(l) = counts.least_lone() {
        touch_all(f, holders.positions(l), live, counts)?;
        order.push(l)?;
    }
    Ok(order)
}

/// Touches the clauses at these positions.
fn touch_all(
    f: &Formula,
    positions: &[u32],
    live: &mut Vec<bool>,
    counts: &mut Counts,
) -> Result<(), OutOfMemory>
    requires within { All (λ p. (0 < p) × (p ≤ length f.now.clauses)) positions.now }
    requires counted { AreCounted f.now live.old.items counts.old }
    ensures down { OnOk result (GoDown positions.now (length f.now.clauses) live.old.items live.new.items) }
    ensures counted { OnOk result (AreCounted f.now live.new.items counts.new) }
{
    for p in positions {
        touch(f, *p, live, counts)?;
    }
    Ok(())
}

/// Touches the clause at a position, unless it is touched.
fn touch(f: &Formula, p: u32, live: &mut Vec<bool>, counts: &mut Counts) -> Result<(), OutOfMemory>
    requires first { 0 < p }
    requires last { p ≤ length f.now.clauses }
    requires counted { AreCounted f.now live.old.items counts.old }
    ensures down { live.new.items ≡ slice_set live.old.items (p - 1) false }
    ensures counted { OnOk result (AreCounted f.now live.new.items counts.new) }
{
    let i = p as usize - 1;
    if live[i] {
        live[i] = false;
        lower_all(f.clause(p), counts)?;
    }
    Ok(())
}

/// Counts a clause less, at each of its literals.
fn lower_all(clause: &[Lit], counts: &mut Counts) -> Result<(), OutOfMemory>
    requires clause { IsTrue (is_clause counts.old.vars clause.now) }
    requires width { length counts.old.counts ≡ 2 * counts.old.vars + 2 }
    requires held { AreHeld counts.old clause.now }
    ensures { OnOk result (LowersAll clause.now counts.old counts.new) }
{
    for l in clause {
        counts.lower(*l)?;
    }
    Ok(())
}
