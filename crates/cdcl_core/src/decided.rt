//! Deciding whether clauses have a model.
ghost use Rattle.std.specs.Prelude.{◌≡◌, ◌+◌, ◌-◌, ◌<◌, ◌≤◌, ◌^◌, length, IfOk};
ghost use Rattle.lk_model.specs.Held.VariableSets.{IsCrossed};
ghost use Rattle.variable_orders.specs.VariableOrders.{IsOrderOver};
ghost use Rattle.cdcl_core.specs.Decision.{IsDecided};
ghost use Rattle.cdcl_core.specs.Searching.{IsSearch, GoesOnFrom, decided_by};

use crate::activity::Activity;
use crate::search::Search;
use crate::signs::Signs;
use lk_model::{Crossed, Decided, OutOfMemory};
use partial_assign::Partial;
use refutation_log::Log;
use std::alloc::Global;
use variable_orders::ascending;
use watch_prop::Propagated;

/// What is decided of crossed clauses: a model, which satisfies each clause that is not empty, and sets no blocked
/// variable; or a refutation, whose last step states the empty clause; or as many learned clauses as were allowed, where
/// a further conflict stands above level 0.
pub type Outcome = Decided<Partial, Log, Log>;

/// Looks for a model of the crossed clauses that are not empty, by learning from conflicts: the least unset variable is
/// decided, and made true. (No clause says which variable is decided, and with which value; tests do.) The steps of a
/// log are numbered from `next`, which is above the number of the formula's clauses, and at most `budget` clauses are
/// learned. Each contains no complementary pair, no crossed clause that is not empty and no earlier learned one. The
/// error is that there is no memory.
pub fn decide(alloc: Global, over: &Crossed, next: u64, budget: u64) -> Result<Outcome, OutOfMemory>
    requires crossed { IsCrossed over.now }
    requires some { 0 < budget }
    requires past { length over.now.formula.now.clauses < next }
    requires room { next + budget < 2 ^ 64 - 1 }
    ensures { IfOk result (IsDecided over.now next budget) }
{
    let order = ascending(alloc, over)?;
    decide_by(alloc, over, order, &mut Signs::True, next, budget)
}

/// As `decide`, but the first unset variable of an order is decided, with the value that `signs` has for it. If these
/// are the last values of the variables, they are kept up to date, for a further call. (No clause says any of this;
/// tests do.)
pub fn decide_by(
    alloc: Global,
    over: &Crossed,
    order: Vec<u32>,
    signs: &mut Signs,
    next: u64,
    budget: u64,
) -> Result<Outcome, OutOfMemory>
    requires crossed { IsCrossed over.now }
    requires order { IsOrderOver over.now order.items }
    requires past { length over.now.formula.now.clauses < next }
    requires room { next + budget < 2 ^ 64 - 1 }
    ensures { IfOk result (IsDecided over.now next budget) }
{
    let mut search = Search::new(alloc, over, order, next)?;
    let mut none = Activity::none(alloc);
    let end = run(&mut search, alloc, over, signs, &mut none, budget);
    let log = search.into_log();
    let end = end?;
    Ok(decided_by(log, end))
}

/// How a search ends.
#[derive(Drop)]
pub(crate) enum End {
    /// With a model.
    Model(Partial),
    /// With the empty clause in its log.
    Empty,
    /// With as many clauses in its log as were allowed, and a further conflict: it can go on from there.
    Full,
}

/// What is decided by a search that ends so with this log.
pub(crate) fn decided_by(log: Log, end: End) -> Outcome
    ensures { result ≡ decided_by log end }
{
    match end {
        End::Model(values) => Decided::Model(values),
        End::Empty => Decided::Refuted(log),
        End::Full => Decided::Stopped(log),
    }
}

/// Searches on, at most until `budget` clauses are learned in all.
pub(crate) fn run(
    search: &mut Search,
    alloc: Global,
    over: &Crossed,
    signs: &mut Signs,
    activity: &mut Activity,
    budget: u64,
) -> Result<End, OutOfMemory>
    requires crossed { IsCrossed over.now }
    requires search { IsSearch over.now search.old }
    requires most { length search.old.log.steps ≤ budget }
    requires room { search.old.log.first + budget < 2 ^ 64 - 1 }
    ensures decided { IfOk result
        (λ end. IsDecided over.now search.old.log.first budget (decided_by search.new.log end)) }
    ensures goes_on { IfOk result (GoesOnFrom over.now search.new) }
{
    'turns: loop {
        match search.propagator.propagate() {
            Propagated::Quiet => {
                if !search.assign_next(over, signs, activity)? {
                    signs.note_all(&search.propagator);
                    return Ok(End::Model(search.model(alloc, over)?));
                }
            }
            Propagated::Conflict(conflict) => {
                if search.propagator.present_level() == 0 {
                    search.refute(alloc, over, conflict)?;
                    return Ok(End::Empty);
                }
                if search.log.len() as u64 == budget {
                    signs.note_all(&search.propagator);
                    return Ok(End::Full);
                }
                search.learn(alloc, over, signs, activity, conflict)?;
            }
        }
    }
}
