//! A minimally unsatisfiable core.
//!
//! From the set that a refutation names, one clause after another is left out. If the others have a model, the clause
//! is needed, and the model is kept as its witness; if they have none, what their refutation names is the new set
//! (deletion with refinement: Dershowitz, Hanna and Nadel, "A Scalable Algorithm for Minimal Unsatisfiable Core
//! Extraction", 2006).
//!
//! Here the clauses of the first set are copied under numbers of their own, and each decision copies some of these, so
//! that none costs the formula. The last refutation is kept, its round in the formula's numbers, and beside it the places
//! of the copy that it uses. In the end these are all of the core, since all later answers are models.
ghost use Rattle.std.specs.Prelude.{◌≡◌, ◌==◌, None, filter, not, length, replicate, IfOk, IsTrue};
ghost use Rattle.occurrence_lists.specs.Occurrences.{AreOccurrences};
ghost use Rattle.part_copy.specs.Found.{are_filled};
ghost use Rattle.mus_core.specs.Found.{IsMus};
ghost use Rattle.mus_core.specs.Shrinking.{IsNext, IsRefutedWithin, IsShrunk, IsLeftOut};

use crate::mus::Mus;
use crate::rotation::give;
use crate::told_core::told_core;
use crate::witnesses::{Witnesses, first_open};
use cdcl_core::Schedule;
use lk_model::{Budget, Decided, Formula, List, OutOfMemory};
use occurrence_lists::OccurrenceLists;
use part_copy::{OpenRound, PartCopy};
use part_formula::{Refuted, decide_clauses};
use partial_assign::assignment_of;
use result_renaming::positions_at;
use std::alloc::Global;

/// How many clauses each order of variables learns in a slice of a decision.
const SLICE: u64 = 300;

/// Leaves out clauses of a refuted set until each has a witness.
pub(crate) fn shrink(
    alloc: Global,
    core: &PartCopy,
    refutation: Refuted,
    conflicts: Budget,
) -> Result<Mus, OutOfMemory>
    requires filled { IsTrue (are_filled core.now.formula core.now.part) }
    requires refuted { IsRefutedWithin core.now conflicts refutation }
    ensures { IfOk result (IsMus core.now.formula conflicts) }
{
    let mut tables = Tables::new(alloc, core.clauses())?;
    shrink_by(
        alloc,
        core,
        &tables.lists,
        refutation,
        &mut tables.witnesses,
        &mut tables.schedule,
        conflicts,
    )
}

/// What all decisions use.
#[derive(Drop)]
pub(crate) struct Tables {
    pub lists: OccurrenceLists,
    pub witnesses: Witnesses,
    pub schedule: Schedule,
}

impl Tables {
    // Where no place has a witness.
    fn new(alloc: Global, clauses: &Formula) -> Result<Tables, OutOfMemory>
        ensures lists { IfOk result (λ t. AreOccurrences clauses.now t.lists) }
        ensures witnesses { IfOk result (λ t. t.witnesses ≡ replicate (length clauses.now.clauses) None) }
    {
        let lists = OccurrenceLists::new(alloc, clauses)?;
        let witnesses = Witnesses::new(alloc, clauses.len())?;
        let schedule = Schedule::keeping(alloc, clauses.vars(), SLICE, SLICE)?;
        Ok(Tables {
            lists,
            witnesses,
            schedule,
        })
    }
}

// One place after another.
fn shrink_by(
    alloc: Global,
    core: &PartCopy,
    lists: &OccurrenceLists,
    refutation: Refuted,
    witnesses: &mut Witnesses,
    schedule: &mut Schedule,
    conflicts: Budget,
) -> Result<Mus, OutOfMemory>
    requires filled { IsTrue (are_filled core.now.formula core.now.part) }
    requires lists { AreOccurrences core.now.clauses lists.now }
    requires shrunk { IsShrunk core.now conflicts refutation witnesses.old }
    ensures { IfOk result (IsMus core.now.formula conflicts) }
{
    let mut refutation = refutation;
    'clauses: loop {
        match first_open(refutation.used.as_slice(), witnesses) {
            None => {
                let found = told_core(alloc, core, refutation, witnesses)?;
                return Ok(Mus::Core(found));
            }
            Some(p) => {
                match leave_out(
                    alloc,
                    core,
                    lists,
                    &refutation,
                    witnesses,
                    schedule,
                    p,
                    conflicts,
                )? {
                    LeftOut::Kept => {}
                    LeftOut::On(next) => refutation = next,
                    LeftOut::Ended(mus) => return Ok(mus),
                }
            }
        }
    }
}

/// How the search goes on.
#[derive(Drop)]
pub(crate) enum LeftOut {
    /// With the same refutation.
    Kept,
    /// With this refutation.
    On(Refuted),
    /// Not at all.
    Ended(Mus),
}

// Leaves out the clause at a place without a witness.
fn leave_out(
    alloc: Global,
    core: &PartCopy,
    lists: &OccurrenceLists,
    refutation: &Refuted,
    witnesses: &mut Witnesses,
    schedule: &mut Schedule,
    p: u32,
    conflicts: Budget,
) -> Result<LeftOut, OutOfMemory>
    requires filled { IsTrue (are_filled core.now.formula core.now.part) }
    requires lists { AreOccurrences core.now.clauses lists.now }
    requires shrunk { IsShrunk core.now conflicts refutation.now witnesses.old }
    requires next { IsNext core.now refutation.now witnesses.old p }
    ensures { IfOk result (IsLeftOut core.now conflicts refutation.now witnesses.old witnesses.new) }
{
    let others = others(alloc, refutation.used.as_slice(), p)?;
    let rest = core.at(alloc, others.as_slice())?;
    match decide_clauses(alloc, rest.clauses(), schedule, conflicts)? {
        Decided::Model(set) => {
            let values = assignment_of(alloc, core.clauses().vars(), set.as_slice())?;
            let places = refutation.used.as_slice();
            give(alloc, core.clauses(), lists, places, witnesses, p, values)?;
            Ok(LeftOut::Kept)
        }
        Decided::Refuted(smaller) => Ok(LeftOut::On(Refuted {
            round: rest.refutation(alloc, smaller.round)?,
            used: positions_at(others.as_slice(), smaller.used),
        })),
        Decided::Stopped(round) => {
            let OpenRound { texts, round } = rest.open_alone(alloc, round)?;
            let part = rest.into_part();
            Ok(LeftOut::Ended(Mus::Unfinished { part, texts, round }))
        }
    }
}

// The other places.
fn others(alloc: Global, places: &[u32], p: u32) -> Result<List<u32>, OutOfMemory>
    ensures { IfOk result (λ qs. qs ≡ filter (λ q. not (q == p)) places.now) }
{
    let mut others = List::new(alloc);
    for q in places {
        if *q != p {
            others.push(*q)?;
        }
    }
    Ok(others)
}
