//! Refutations around one clause of a long part.
//!
//! A part may have thousands of small refutations, and a search costs as much as its part is long. So the clauses around
//! one of few unset literals are searched first, then those around the next one, each time in a copy as small as they
//! are. What is found there is restated for the part. Searches in vain are limited by a credit of clauses, which
//! searches of the whole part and refutations found here add to.
ghost use Rattle.std.specs.Prelude.{◌+◌, ◌-◌, ◌<◌, ◌^◌, length, IfOk, IfSome, IsTrue};
ghost use Rattle.lk_model.specs.Formulas.Formula.{is_formula};
ghost use Rattle.lk_model.specs.Held.VariableSets.{IsCrossed};
ghost use Rattle.unit_refutations.specs.Standing.{IsKept, IsWithin};
ghost use Rattle.general_kernel.specs.NearRefutations.{IsRefutedNear, RefutesAll};

use cdcl_core::decide;
use crossed_copy::{CrossedCopy, CrossedRefutation};
use lk_model::{Crossed, Decided, Formula, OutOfMemory, VarSet};
use std::alloc::Global;
use unit_refutations::{Around, Units};

/// A part of at most this many clauses is searched as a whole.
const LEAST: usize = 64;

/// How many clauses are learned around one at most.
const MOST_LEARNED: u64 = 64;

/// How many literals of a seed are unset at most: at first, and at last.
const SHORT: u32 = 2;

const LONGEST: u32 = 4;

/// A search of the whole part pays for searches in vain among this share of its clauses, and among `GAIN` more.
const SHARE: usize = 8;

/// A refutation pays for searches in vain among this many clauses.
const GAIN: usize = 128;

/// Where more clauses are gathered they are not searched.
const MOST_GATHERED: usize = 1024;

/// Where the next refutation is looked for.
#[derive(Drop)]
pub(crate) struct Nearby {
    around: Around,
    /// The place in the part from which on the next seed is sought.
    place: usize,
    /// How many literals of a seed may be unset.
    unset: u32,
    /// Whether there was a refutation since the place was 0.
    found: bool,
    /// Among how many clauses may still be searched in vain.
    credit: usize,
}

impl Nearby {
    /// At the beginning of a part of a formula.
    pub fn new(alloc: Global, f: &Formula, part: &[u32]) -> Result<Nearby, OutOfMemory> {
        let mut nearby = Nearby {
            around: Around::new(alloc, f)?,
            place: 0,
            unset: SHORT,
            found: false,
            credit: 0,
        };
        nearby.note_whole(part);
        Ok(nearby)
    }

    /// Notes that the whole part is searched.
    pub fn note_whole(&mut self, part: &[u32]) {
        if part.len() > LEAST {
            self.credit = self.credit.saturating_add(GAIN + part.len() / SHARE);
        }
        if self.unset > LONGEST {
            self.unset = SHORT;
        }
    }

    // Notes that the last seed led to a refutation: it is looked at again.
    fn note_found(&mut self) {
        self.found = true;
        self.place = self.place.saturating_sub(1);
        self.credit = self.credit.saturating_add(GAIN);
    }

    // Notes that it led to none.
    fn note_vain(&mut self) {
        self.credit = self.credit.saturating_sub(self.around.positions().len());
    }

    // Notes that what was found is not learned, a test that may cost more than a search in vain.
    fn note_refused(&mut self) {
        self.credit /= 2;
    }

    // The next clause with few unset literals, none of them true.
    fn next_seed(&mut self, units: &Units, part: &[u32]) -> Option<u32> {
        for _ in SHORT..LONGEST + 1 {
            if self.unset > LONGEST {
                return None;
            }
            if let Some(seed) = self.next_ahead(units, part) {
                return Some(seed);
            }
            self.begin_again();
        }
        None
    }

    // The next one up to the end of the part.
    fn next_ahead(&mut self, units: &Units, part: &[u32]) -> Option<u32> {
        for place in self.place..part.len() {
            if let Some(unset) = units.unset_at(part[place]) {
                if SHORT <= unset && unset <= self.unset {
                    self.place = place + 1;
                    return Some(part[place]);
                }
            }
        }
        None
    }

    // Goes back to the beginning of the part. Where nothing was found, seeds may have one literal more.
    fn begin_again(&mut self) {
        self.place = 0;
        self.unset = if self.found {
            SHORT
        } else {
            self.unset.saturating_add(1)
        };
        self.found = false;
    }
}

/// Looks for a refutation around one clause after another, with steps numbered from `next` and at most `budget` learned
/// clauses. No clause says that there is none if it returns none.
pub(crate) fn refute_near(
    alloc: Global,
    over: &Crossed,
    units: &Units,
    nearby: &mut Nearby,
    next: u64,
    budget: u64,
) -> Result<Option<CrossedRefutation>, OutOfMemory>
    requires formula { IsTrue (is_formula over.now.formula.now) }
    requires crossed { IsCrossed over.now }
    requires kept { IsKept over.now.formula.now over.now.blocked.now units.now }
    requires within { IsWithin over.now.part.now units.now }
    requires some { 0 < budget }
    requires past { length over.now.formula.now.clauses < next }
    requires room { next + budget < 2 ^ 64 - 1 }
    ensures { IfOk result (λ o. IfSome o (IsRefutedNear over.now next budget)) }
{
    for _ in 0..over.part.len() {
        if nearby.credit == 0 {
            return Ok(None);
        }
        let Some(seed) = nearby.next_seed(units, over.part) else {
            return Ok(None);
        };
        nearby.around.gather(units, over, seed)?;
        if let Some(found) = refute_around(alloc, over, units, nearby, next, budget)? {
            nearby.note_found();
            return Ok(Some(found));
        }
        nearby.note_vain();
    }
    Ok(None)
}

// Looks for one among the clauses that are gathered.
fn refute_around(
    alloc: Global,
    over: &Crossed,
    units: &Units,
    nearby: &mut Nearby,
    next: u64,
    budget: u64,
) -> Result<Option<CrossedRefutation>, OutOfMemory>
    requires formula { IsTrue (is_formula over.now.formula.now) }
    requires crossed { IsCrossed over.now }
    requires kept { IsKept over.now.formula.now over.now.blocked.now units.now }
    requires within { IsWithin over.now.part.now units.now }
    requires some { 0 < budget }
    requires past { length over.now.formula.now.clauses < next }
    requires room { next + budget < 2 ^ 64 - 1 }
    ensures { IfOk result (λ o. IfSome o (IsRefutedNear over.now next budget)) }
{
    let positions = nearby.around.positions();
    if positions.len() > MOST_GATHERED {
        return Ok(None);
    }
    let copy = CrossedCopy::of(alloc, over, units, positions)?;
    let Some(refutation) = refute_all(alloc, &copy.formula, budget)? else {
        return Ok(None);
    };
    let found = copy.learned(alloc, over, units, next - 1, refutation)?;
    if found.is_none() {
        nearby.note_refused();
    }
    Ok(found)
}

// A refutation of all clauses of a formula, with steps numbered after them.
fn refute_all(
    alloc: Global,
    f: &Formula,
    budget: u64,
) -> Result<Option<CrossedRefutation>, OutOfMemory>
    requires { 0 < budget }
    ensures { IfOk result (λ o. IfSome o (RefutesAll f.now budget)) }
{
    let part = f.positions(alloc)?;
    let blocked = VarSet::new(alloc, f.vars())?;
    let over = Crossed {
        formula: f,
        part: part.as_slice(),
        blocked: &blocked,
    };
    let next = u64::from(f.len()) + 1;
    match decide(alloc, &over, next, budget.min(MOST_LEARNED))? {
        Decided::Refuted(log) => {
            let used = log.used(&over)?;
            let round = log.into_round()?;
            Ok(Some(CrossedRefutation { round, used }))
        }
        Decided::Model(_) | Decided::Stopped(_) => Ok(None),
    }
}
