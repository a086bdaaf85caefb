//! Searches that alternate.
ghost use Rattle.std.specs.Prelude.{◌≡◌, ◌≢◌, ◌+◌, ◌-◌, ◌<◌, ◌≤◌, ◌^◌, ℕ, [], length, IfOk, OnOk};
ghost use Rattle.lk_model.specs.Held.VariableSets.{IsCrossed};
ghost use Rattle.cdcl_core.specs.Searching.{IsSearch, decided_by};
ghost use Rattle.cdcl_core.specs.Players.{AreWithin, IsWithin, IsWonBy, WentOn, WentOnEach};

use crate::activity::Activity;
use crate::decided::{End, Outcome, decided_by, run};
use crate::luby::Luby;
use crate::schedule::{By, Schedule};
use crate::search::Search;
use crate::signs::Signs;
use lk_model::{Crossed, OutOfMemory};
use std::alloc::Global;

/// Beside a search by activity the others learn one clause where it learns this many.
const SHARE: u64 = 4;

/// A run by activity learns this many clauses, or a multiple of them, if its slice does not end before.
const SHORTEST_RUN: u64 = 50;

/// Which steps a search may make.
#[derive(Clone, Copy)]
pub(crate) struct Bounds {
    /// The number of the first one.
    pub next: u64,
    /// How many clauses are learned at most.
    pub budget: u64,
}

/// Which of the searches ended, by its place from 0 on, and how.
#[derive(Drop)]
pub(crate) struct Won {
    pub place: usize,
    pub end: End,
}

/// Lets searches alternate, from where nothing is learned, until one ends. The others are begun only if the first slice
/// of the one that begins is not enough.
pub(crate) fn play(
    players: &mut Vec<Player>,
    alloc: Global,
    over: &Crossed,
    schedule: &Schedule,
    bounds: Bounds,
) -> Result<Won, OutOfMemory>
    requires crossed { IsCrossed over.now }
    requires none { players.old.items ≡ [] }
    requires past { length over.now.formula.now.clauses < bounds.next }
    requires room { bounds.next + bounds.budget < 2 ^ 64 - 1 }
    ensures { IfOk result (IsWonBy over.now bounds.next bounds.budget players.new.items) }
{
    let first = schedule.first.min(bounds.budget);
    begin(players, alloc, over, schedule, schedule.by, bounds.next)?;
    if let Some(won) = go_on_each(players, alloc, over, first, bounds)? {
        return Ok(won);
    }
    if first < bounds.budget {
        begin_others(players, alloc, over, schedule, bounds.next)?;
    }
    alternate(players, alloc, over, schedule.further, first, bounds)
}

/// Begins the searches that alternate with the first one.
fn begin_others(
    players: &mut Vec<Player>,
    alloc: Global,
    over: &Crossed,
    schedule: &Schedule,
    next: u64,
) -> Result<(), OutOfMemory>
    requires crossed { IsCrossed over.now }
    requires past { length over.now.formula.now.clauses < next }
    ensures some { OnOk result (0 < length players.new.items) }
    ensures within { (pause : ℕ) → AreWithin over.now next pause players.old.items →
        OnOk result (AreWithin over.now next pause players.new.items) }
{
    begin(players, alloc, over, schedule, schedule.second, next)?;
    if let Some(third) = schedule.third {
        begin(players, alloc, over, schedule, third, next)?;
    }
    Ok(())
}

/// Begins a search by an order.
fn begin(
    players: &mut Vec<Player>,
    alloc: Global,
    over: &Crossed,
    schedule: &Schedule,
    by: By,
    next: u64,
) -> Result<(), OutOfMemory>
    requires crossed { IsCrossed over.now }
    requires past { length over.now.formula.now.clauses < next }
    ensures some { OnOk result (0 < length players.new.items) }
    ensures behind { OnOk result (length players.new.items ≡ length players.old.items + 1) }
    ensures within { (pause : ℕ) → AreWithin over.now next pause players.old.items →
        OnOk result (AreWithin over.now next pause players.new.items) }
{
    players.push(Player::new(alloc, over, schedule, by, next)?)?;
    Ok(())
}

/// Alternates. If all use up the budget, the one at place 0 reports so.
fn alternate(
    players: &mut Vec<Player>,
    alloc: Global,
    over: &Crossed,
    further: u64,
    first: u64,
    bounds: Bounds,
) -> Result<Won, OutOfMemory>
    requires crossed { IsCrossed over.now }
    requires some { 0 < length players.old.items }
    requires players { AreWithin over.now bounds.next bounds.budget players.old.items }
    requires most { first ≤ bounds.budget }
    requires room { bounds.next + bounds.budget < 2 ^ 64 - 1 }
    ensures { IfOk result (IsWonBy over.now bounds.next bounds.budget players.new.items) }
{
    let mut pause = first;
    'slices: loop {
        if let Some(won) = go_on_each(players, alloc, over, pause, bounds)? {
            return Ok(won);
        }
        if pause == bounds.budget {
            return Ok(Won {
                place: 0,
                end: End::Full,
            });
        }
        pause = pause.saturating_add(further.max(1)).min(bounds.budget);
    }
}

/// Lets one search after the other go on, until each has learned `pause` clauses, the slow ones fewer, or one ends.
fn go_on_each(
    players: &mut Vec<Player>,
    alloc: Global,
    over: &Crossed,
    pause: u64,
    bounds: Bounds,
) -> Result<Option<Won>, OutOfMemory>
    requires crossed { IsCrossed over.now }
    requires players { AreWithin over.now bounds.next bounds.budget players.old.items }
    requires most { pause ≤ bounds.budget }
    requires room { bounds.next + bounds.budget < 2 ^ 64 - 1 }
    ensures length { length players.new.items ≡ length players.old.items }
    ensures went { IfOk result (WentOnEach over.now bounds.next pause bounds.budget players.new.items) }
{
    for place in 0..players.len() {
        if let Some(end) = players[place].go_on(alloc, over, pause, bounds)? {
            return Ok(Some(Won { place, end }));
        }
    }
    Ok(None)
}

/// A search that alternates with others.
#[derive(Drop)]
pub(crate) struct Player {
    search: Search,
    signs: Signs,
    activity: Activity,
    /// How long it goes on by activity before it begins anew.
    luby: Luby,
    /// How many clauses it learns in its first slice.
    first: u64,
    /// Whether it learns less in a slice than one by activity does.
    is_slow: bool,
}

impl Player {
    /// Where nothing is set and nothing is learned.
    fn new(
        alloc: Global,
        over: &Crossed,
        schedule: &Schedule,
        by: By,
        next: u64,
    ) -> Result<Player, OutOfMemory>
        requires crossed { IsCrossed over.now }
        requires past { length over.now.formula.now.clauses < next }
        ensures { IfOk result (λ p. IsWithin over.now next 0 p.search) }
    {
        let signs = schedule.signs(alloc, by, over.formula.vars())?;
        let order = by.variables(alloc, over)?;
        let activity = by.activity(alloc, over.formula.vars(), order.as_slice())?;
        Ok(Player {
            search: Search::new(alloc, over, order, next)?,
            signs,
            activity,
            luby: Luby::new(),
            first: schedule.first,
            is_slow: schedule.is_slow(by),
        })
    }

    /// Searches on until `pause` clauses are learned in all, or fewer if it is slow. Where a further one would be
    /// learned, it pauses.
    fn go_on(
        &mut self,
        alloc: Global,
        over: &Crossed,
        pause: u64,
        bounds: Bounds,
    ) -> Result<Option<End>, OutOfMemory>
        requires crossed { IsCrossed over.now }
        requires within { IsWithin over.now bounds.next bounds.budget self.old.search }
        requires most { pause ≤ bounds.budget }
        requires room { bounds.next + bounds.budget < 2 ^ 64 - 1 }
        ensures { IfOk result (WentOn over.now bounds.next pause bounds.budget self.new.search) }
    {
        let until = self.until(pause, bounds.budget);
        'runs: loop {
            let stop = self.begin_run(over, until);
            match run(
                &mut self.search,
                alloc,
                over,
                &mut self.signs,
                &mut self.activity,
                stop,
            )? {
                End::Model(values) => return Ok(Some(End::Model(values))),
                End::Empty => return Ok(Some(End::Empty)),
                End::Full => {
                    if stop == until {
                        return Ok(None);
                    }
                }
            }
        }
    }

    /// How many clauses are learned in all when its next run ends, by `until` at the latest. By activity each run
    /// begins at level 0.
    fn begin_run(&mut self, over: &Crossed, until: u64) -> u64
        requires search { IsSearch over.now self.old.search }
        requires few { length self.old.search.log.steps ≤ until }
        ensures search { IsSearch over.now self.new.search }
        ensures log { self.new.search.log ≡ self.old.search.log }
        ensures few { length self.new.search.log.steps ≤ result }
        ensures most { result ≤ until }
        ensures more { result ≢ until → length self.new.search.log.steps < result }
    {
        if self.activity.is_empty() {
            return until;
        }
        self.search
            .begin_anew(over, &mut self.signs, &mut self.activity);
        let length = self.luby.next().saturating_mul(SHORTEST_RUN).max(1);
        let learned = self.search.log.len() as u64;
        learned.saturating_add(length).min(until)
    }

    /// How many clauses are learned when it pauses.
    fn until(&self, pause: u64, budget: u64) -> u64
        requires pause { pause ≤ budget }
        requires few { length self.now.search.log.steps ≤ budget }
        ensures few { length self.now.search.log.steps ≤ result }
        ensures most { result ≤ budget }
        ensures ends { pause ≡ budget → result ≡ budget }
    {
        if pause == budget {
            return budget;
        }
        let goal = if self.is_slow {
            (pause / SHARE).max(self.first)
        } else {
            pause
        };
        goal.min(budget).max(self.search.log.len() as u64)
    }

    /// What this search decides, which ends so, and its values.
    pub(crate) fn into_answer(self, end: End) -> (Outcome, Signs)
        ensures { result.0 ≡ decided_by self.search.log end }
    {
        (decided_by(self.search.into_log(), end), self.signs)
    }
}
