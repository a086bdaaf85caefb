//! Shorter clauses.
//!
//! A literal of a learned clause is resolved with its reason, if all other variables of the reason are in the clause:
//! then the clause loses just this literal (Sörensson and Biere, "Minimizing Learned Clauses", 2009). The last literals
//! of the trail come first, since a reason has only earlier ones. Those of the present level stay.
ghost use Rattle.std.specs.Prelude.{◌≡◌, ◌<◌, ◌≤◌, ℕ, length, IfOk, IfSome, OnOk, IsTrue};
ghost use Rattle.std.specs.List.{list_all};
ghost use Rattle.lk_model.specs.Formulas.Literal.{is_literal};
ghost use Rattle.lk_model.specs.Held.VariableSets.{is_in};
ghost use Rattle.general_laws.specs.Found.{has_only};
ghost use Rattle.watch_prop.specs.declared.entry.Propagated.TheVariants.{Conflict};
ghost use Rattle.watch_prop.specs.Trail.{present_level};
ghost use Rattle.watch_prop.specs.Propagation.{IsPropagation, IsAnswered};
ghost use Rattle.learning_laws.specs.Learned.{IsQuietBelow};
ghost use Rattle.cdcl_core.specs.Marking.{AreClean};
ghost use Rattle.cdcl_core.specs.Backward.{HasNames, IsReasonWithin, LeadsBack};

use crate::analysis::analyze;
use lk_model::{Lit, OutOfMemory, Turn, VarSet};
use std::alloc::Global;
use watch_prop::Propagator;

/// Of the trail this many literals are looked at, the last ones: a long one costs no conflict more than that.
const LOOKED_AT: usize = 4096;

/// The turns from a false clause above level 0 to the one that is learned, and if it is wanted on to a shorter one. The
/// variables of the clause to which they lead stay marked.
pub(crate) fn turns_back(
    alloc: Global,
    p: &Propagator,
    conflict: u64,
    shorter: bool,
    marks: &mut VarSet,
) -> Result<Vec<Turn>, OutOfMemory>
    requires held { IsPropagation p.now }
    requires quiet { IsQuietBelow p.now }
    requires named { HasNames p.now }
    requires conflict { IsAnswered p.now (Conflict conflict) }
    requires above { 0 < present_level p.now.trail }
    requires size { length marks.old ≡ p.now.vars }
    requires clean { AreClean marks.old }
    ensures size { length marks.new ≡ length marks.old }
    ensures leads { IfOk result (λ turns. LeadsBack p.now conflict turns.items marks.new) }
{
    let mut turns = analyze(alloc, p, conflict, marks)?;
    if shorter {
        minimize(p, &mut turns, marks)?;
    }
    Ok(turns)
}

/// Appends the turns by which the clause of a chain loses literals. The variables that the clause keeps stay marked.
fn minimize(p: &Propagator, turns: &mut Vec<Turn>, marks: &mut VarSet) -> Result<(), OutOfMemory>
    requires held { IsPropagation p.now }
    requires above { 0 < present_level p.now.trail }
    requires size { length marks.old ≡ p.now.vars }
    ensures size { length marks.new ≡ length marks.old }
    ensures leads { OnOk result ((conflict : ℕ) → LeadsBack p.now conflict turns.old.items marks.old
        → LeadsBack p.now conflict turns.new.items marks.new) }
{
    let trail = p.trail();
    let low = trail.len().saturating_sub(LOOKED_AT);
    for place in (low..trail.len()).rev() {
        let l = trail[place];
        if let Some(with) = reason_within(p, l.var(), marks) {
            let lit = l.negated();
            turns.push(Turn { lit, with })?;
            marks.remove(l.var());
        }
    }
    Ok(())
}

/// The reason of a marked variable below the present level, if all variables of the reason are marked.
fn reason_within(p: &Propagator, v: u32, marks: &VarSet) -> Option<u64>
    requires held { IsPropagation p.now }
    requires first { 0 < v }
    requires last { v ≤ p.now.vars }
    requires size { length marks.now ≡ p.now.vars }
    ensures { IfSome result (λ k. IsReasonWithin p.now v k marks.now) }
{
    if !marks.has(v) {
        return None;
    }
    if p.level(v) == Some(p.present_level()) {
        return None;
    }
    let with = p.reason(v)?;
    if has_only(p.clause(with), marks) {
        Some(with)
    } else {
        None
    }
}

/// Whether all variables of a clause are marked.
fn has_only(lits: &[Lit], marks: &VarSet) -> bool
    requires { IsTrue (list_all (is_literal (length marks.now)) lits.now) }
    ensures { result ≡ has_only (is_in marks.now) lits.now }
{
    lits.iter().all(|l| marks.has(l.var()))
}
