//! Budgets around the edges of slices: what orders that alternate return, beside what each returns by itself.
use crate::asking::{Asked, Way, answer};
use cdcl_core::By;
use lk_model::Decided;
use std::alloc::Global;
use std::test::Fail;

/// The numbers and the connection by themselves, as they alternate.
pub(crate) const USUAL: [Way; 2] = [
    Way::One {
        by: By::Number,
        last: false,
    },
    Way::One {
        by: By::Connection,
        last: true,
    },
];

/// The orders without scores by themselves, as they alternate.
pub(crate) const ALL: [Way; 3] = [
    Way::One {
        by: By::Occurrences,
        last: true,
    },
    Way::One {
        by: By::Number,
        last: false,
    },
    Way::One {
        by: By::Connection,
        last: true,
    },
];

/// What is returned.
#[derive(Clone, Copy, PartialEq)]
enum Told {
    /// There is a model.
    Sat,
    /// A refutation of this many steps.
    Refuted(usize),
    /// This many steps, without an end.
    Stopped(usize),
}

/// What is returned.
fn answered(alloc: Global, asked: &Asked, way: Way, next: u64, budget: u64) -> Result<Told, Fail> {
    match answer(alloc, asked, way, next, budget)? {
        Decided::Model(_) => Ok(Told::Sat),
        Decided::Refuted(log) => Ok(Told::Refuted(log.len())),
        Decided::Stopped(log) => Ok(Told::Stopped(log.len())),
    }
}

/// The least budget that is enough, if it is less than a bound, and else the bound.
fn enough(alloc: Global, asked: &Asked, way: Way, next: u64, bound: u32) -> Result<u64, Fail> {
    for budget in 1..bound {
        if !matches!(
            answered(alloc, asked, way, next, u64::from(budget))?,
            Told::Stopped(_)
        ) {
            return Ok(u64::from(budget));
        }
    }
    Ok(u64::from(bound))
}

/// The place of the order that decides first within a budget, by the budgets that are enough for each, or none. Each
/// has as many clauses as a slice allows, and then `further` more, at least one; the others begin after its first
/// slice.
fn winner(enough: &[u64], slice: u64, further: u64, budget: u64) -> Option<usize> {
    let mut pause = slice.min(budget);
    let leading = enough.first().copied().unwrap_or(0);
    if pause == budget && leading > pause {
        return None;
    }
    for _ in 0..1000u32 {
        for place in 0..enough.len() {
            if enough[place] <= pause {
                return Some(place);
            }
        }
        if pause == budget {
            return None;
        }
        pause = pause.saturating_add(further.max(1)).min(budget);
    }
    None
}

/// For each order the least budget that is enough, if it is less than a bound, and else the bound.
fn all_enough(
    alloc: Global,
    asked: &Asked,
    orders: &[Way],
    next: u64,
    bound: u32,
) -> Result<Vec<u64>, Fail> {
    let mut budgets = Vec::new(alloc);
    for order in orders {
        budgets.push(enough(alloc, asked, *order, next, bound)?)?;
    }
    Ok(budgets)
}

/// Of how many budgets up to a bound the schedule's answer is that of the order that decides first, or a stop.
pub(crate) fn right_budgets(
    alloc: Global,
    asked: &Asked,
    orders: &[Way],
    way: Way,
    bound: u32,
) -> Result<u32, Fail> {
    let next = u64::from(asked.formula.len()) + 1;
    let budgets = all_enough(alloc, asked, orders, next, bound.saturating_add(1))?;
    let (slice, further) = way.lengths();
    let mut right = 0u32;
    for budget in 0..bound {
        let budget = u64::from(budget) + 1;
        let first = winner(budgets.as_slice(), slice, further, budget);
        let wanted = match first.and_then(|place| orders.get(place)) {
            Some(order) => answered(alloc, asked, *order, next, budget)?,
            None => Told::Stopped(budget as usize),
        };
        if answered(alloc, asked, way, next, budget)? == wanted {
            right = right.saturating_add(1);
        }
    }
    Ok(right)
}
