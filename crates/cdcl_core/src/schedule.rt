//! Orders that alternate.
//!
//! No order of the variables is good for all clauses, and one that is bad may take thousands of times as long as
//! another. So searches, each with an order of its own, alternate. Each goes on from where it paused, but by activity
//! from level 0. None learns from the others: the result is what one of them finds by itself (algorithms that are run
//! side by side: Huberman, Lukose and Hogg, "An Economics Approach to Hard Computational Problems", 1997).
ghost use Rattle.std.specs.Prelude.{◌≡◌, ◌+◌, ◌-◌, ◌<◌, ◌^◌, length, Some, None, IfOk, OnErr};
ghost use Rattle.lk_model.specs.Held.VariableSets.{IsCrossed};
ghost use Rattle.variable_orders.specs.VariableOrders.{IsOrderOver};
ghost use Rattle.cdcl_core.specs.Decision.{IsDecided};
ghost use Rattle.cdcl_core.specs.Players.{HasLengthsOf, led_by};

use crate::activity::Activity;
use crate::decided::Outcome;
use crate::players::{Bounds, play};
use crate::signs::Signs;
use lk_model::{Crossed, OutOfMemory};
use std::alloc::Global;
use variable_orders::{ascending, by_connection, by_occurrences};

/// How many clauses are learned in the first slice of each order.
const FIRST_SLICE: u64 = 512;

/// How many more are learned in each further slice.
const FURTHER_SLICES: u64 = 512;

/// An order in which variables are decided, and the values with which they are.
#[derive(Clone, Copy)]
pub enum By {
    /// The order of their numbers, true first.
    Number,
    /// The order of their connection, with the values that they last had.
    Connection,
    /// The order of how often they occur, with the values that they last had.
    Occurrences,
    /// The order of what they had to do with conflicts, with the values that they last had. Each run begins at level 0,
    /// with all that is learned.
    Activity,
}

impl By {
    /// The variables of the crossed clauses in this order.
    pub(crate) fn variables(self, alloc: Global, over: &Crossed) -> Result<Vec<u32>, OutOfMemory>
        requires { IsCrossed over.now }
        ensures { IfOk result (λ vars. IsOrderOver over.now vars.items) }
    {
        match self {
            By::Number | By::Activity => Ok(ascending(alloc, over)?),
            By::Connection => Ok(by_connection(alloc, over)?),
            By::Occurrences => Ok(by_occurrences(alloc, over)?),
        }
    }

    /// The values of variables up to n that have had none.
    fn signs(self, alloc: Global, n: u32) -> Result<Signs, OutOfMemory> {
        match self {
            By::Number => Ok(Signs::True),
            By::Connection | By::Occurrences | By::Activity => Signs::last(alloc, n),
        }
    }

    /// Whether it is that of the activity.
    fn is_activity(self) -> bool {
        matches!(self, By::Activity)
    }

    /// The activity of these variables up to n, if they are decided by it.
    pub(crate) fn activity(
        self,
        alloc: Global,
        n: u32,
        vars: &[u32],
    ) -> Result<Activity, OutOfMemory> {
        match self {
            By::Activity => Activity::of(alloc, n, vars),
            By::Number | By::Connection | By::Occurrences => Ok(Activity::none(alloc)),
        }
    }
}

/// How orders alternate, and the values that are kept from call to call.
#[derive(Drop)]
pub struct Schedule {
    /// The order that begins.
    pub by: By,
    /// The order that alternates with it.
    pub second: By,
    /// A further order, if three alternate.
    pub third: Option<By>,
    /// How many clauses are learned in the first slice of each order.
    pub first: u64,
    /// How many more are learned in each further slice; at least one is.
    pub further: u64,
    /// If values are kept, those that variables last had, by variable, with nothing at 0.
    kept: Option<Vec<bool>>,
}

impl Schedule {
    /// The usual schedule: the numbers, which begin, the connection and the activity. No values are kept.
    pub fn new() -> Schedule
        ensures by { result.by ≡ By.Number }
        ensures second { result.second ≡ By.Connection }
        ensures third { result.third ≡ Some By.Activity }
        ensures first { result.first ≡ 512 }
        ensures further { result.further ≡ 512 }
    {
        Schedule {
            by: By::Number,
            second: By::Connection,
            third: Some(By::Activity),
            first: FIRST_SLICE,
            further: FURTHER_SLICES,
            kept: None,
        }
    }

    /// The schedule for refutations that name few clauses: the occurrences, which begin, the connection and the activity.
    /// They have the usual lengths, and no values are kept.
    pub fn for_cores() -> Schedule
        ensures by { result.by ≡ By.Occurrences }
        ensures second { result.second ≡ By.Connection }
        ensures third { result.third ≡ Some By.Activity }
        ensures first { result.first ≡ 512 }
        ensures further { result.further ≡ 512 }
    {
        Schedule {
            by: By::Occurrences,
            second: By::Connection,
            third: Some(By::Activity),
            first: FIRST_SLICE,
            further: FURTHER_SLICES,
            kept: None,
        }
    }

    /// The orders of `for_cores`, of these lengths, that keep values of variables up to n. All orders decide with the
    /// last values, and each begins with those that are kept: true at first, and then those of the search whose result
    /// the call before returned.
    pub fn keeping(alloc: Global, n: u32, first: u64, further: u64) -> Result<Schedule, OutOfMemory>
        ensures by { IfOk result (λ schedule. schedule.by ≡ By.Occurrences) }
        ensures second { IfOk result (λ schedule. schedule.second ≡ By.Connection) }
        ensures third { IfOk result (λ schedule. schedule.third ≡ Some By.Activity) }
        ensures first { IfOk result (λ schedule. schedule.first ≡ first) }
        ensures further { IfOk result (λ schedule. schedule.further ≡ further) }
    {
        Ok(Schedule {
            by: By::Occurrences,
            second: By::Connection,
            third: Some(By::Activity),
            first,
            further,
            kept: Some(vec![in alloc; true; n as usize + 1]?),
        })
    }

    /// Whether an order is slow: one by activity is in the schedule, and this is another one.
    pub(crate) fn is_slow(&self, by: By) -> bool {
        let fast = self.by.is_activity()
            || self.second.is_activity()
            || matches!(self.third, Some(By::Activity));
        fast && !by.is_activity()
    }

    /// The values with which an order begins: a copy of what is kept, so that no order knows of another, or where
    /// nothing is, those of variables up to n that have had none.
    pub(crate) fn signs(&self, alloc: Global, by: By, n: u32) -> Result<Signs, OutOfMemory> {
        match &self.kept {
            Some(values) => Ok(Signs::Last(Vec::from_slice(alloc, values.as_slice())?)),
            None => by.signs(alloc, n),
        }
    }

    /// Keeps the values of the search whose result is returned, if values are kept.
    fn keep(&mut self, signs: Signs)
        ensures lengths { HasLengthsOf self.new self.old }
        ensures others { self.new ≡ record self.old { kept = self.new.kept } }
    {
        if let Signs::Last(values) = signs {
            if self.kept.is_some() {
                self.kept = Some(values);
            }
        }
    }

    /// Lets the order at a place, counted from 0, begin from now on.
    fn lead(&mut self, place: usize)
        ensures lengths { HasLengthsOf self.new self.old }
        ensures led { self.new ≡ led_by self.old place }
    {
        let by = self.by;
        if place == 1 {
            self.by = self.second;
            self.second = by;
        }
        if place == 2 {
            if let Some(third) = self.third {
                self.by = third;
                self.third = Some(by);
            }
        }
    }
}

/// As `decide`, by orders that alternate: each learns at most `budget` clauses, and if all use that up, the result is
/// that of the order that began. If `budget` is at most the first slice, only that one is tried. The order whose result
/// is returned begins in a further call with this schedule, with its values if they are kept. (No clause says which
/// order that is, which one begins, and which values are kept; tests do.) If a call fails, the schedule is as it was.
pub fn decide_by_schedule(
    alloc: Global,
    over: &Crossed,
    schedule: &mut Schedule,
    next: u64,
    budget: u64,
) -> Result<Outcome, OutOfMemory>
    requires crossed { IsCrossed over.now }
    requires past { length over.now.formula.now.clauses < next }
    requires room { next + budget < 2 ^ 64 - 1 }
    ensures decided { IfOk result (IsDecided over.now next budget) }
    ensures lengths { HasLengthsOf schedule.new schedule.old }
    ensures failed { OnErr result (schedule.new ≡ schedule.old) }
{
    let mut players = Vec::new(alloc);
    match play(&mut players, alloc, over, schedule, Bounds { next, budget }) {
        Ok(won) => {
            let winner = players.swap_remove(won.place);
            drop(players);
            let (decided, signs) = winner.into_answer(won.end);
            schedule.lead(won.place);
            schedule.keep(signs);
            Ok(decided)
        }
        Err(error) => {
            drop(players);
            Err(error)
        }
    }
}
