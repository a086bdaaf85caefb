//! Questions.
ghost use Rattle.std.specs.Prelude.{◌≡◌, ◌<◌, ◌^◌, length, IfOk, OnOk, IsTrue};
ghost use Rattle.lk_model.specs.Formulas.Lean.{are_positions};
ghost use Rattle.lk_model.specs.Held.VariableSets.{IsCrossed};
ghost use Rattle.variable_orders.specs.VariableOrders.{IsOrderOver};

use cdcl_core::{By, Outcome, Schedule, Signs, decide, decide_by, decide_by_schedule};
use lk_model::{Crossed, Formula, OutOfMemory};
use lk_samples::{has_part, set_of};
use std::alloc::{AllocError, Global};
use std::test::Fail;
use variable_orders::{ascending, by_connection, by_occurrences};

/// By which orders variables are decided.
#[derive(Clone, Copy)]
pub(crate) enum Way {
    /// As `decide` does: by the numbers, true first.
    Usual,
    /// By one order, with the last values or true first.
    One { by: By, last: bool },
    /// By the numbers and the connection, which alternate: `first` clauses are learned at first, and `further` more in
    /// each further slice.
    Schedule { first: u64, further: u64 },
    /// By the activity beside itself, so that the first one gives the answer.
    Activity { first: u64, further: u64 },
    /// By the usual three, which alternate.
    WithActivity { first: u64, further: u64 },
    /// By the three for cores, which alternate.
    Cores { first: u64, further: u64 },
    /// By the occurrences, the numbers and the connection, which alternate.
    All { first: u64, further: u64 },
    /// By the schedule that keeps values, and then again with these: the second answer.
    Twice { first: u64, further: u64 },
}

impl Way {
    /// How many clauses are learned in the first slice, and how many more in each further one.
    pub(crate) fn lengths(self) -> (u64, u64) {
        match self {
            Way::Usual | Way::One { .. } => (0, 0),
            Way::Schedule { first, further }
            | Way::Activity { first, further }
            | Way::WithActivity { first, further }
            | Way::Cores { first, further }
            | Way::All { first, further }
            | Way::Twice { first, further } => (first, further),
        }
    }
}

/// A part of a formula, and the variables whose literals are crossed out.
#[derive(Clone, Copy)]
pub(crate) struct Asked<'a> {
    pub formula: &'a Formula,
    pub part: &'a [u32],
    pub blocked: &'a [u32],
}

/// Decides by one order.
fn decide_by_one(
    alloc: Global,
    over: &Crossed,
    by: By,
    last: bool,
    next: u64,
    budget: u64,
) -> Result<Outcome, OutOfMemory>
    requires over { IsCrossed over.now }
    requires some { 0 < budget }
    requires past { length over.now.formula.now.clauses < next }
    requires next { next < 2 ^ 40 }
    requires budget { budget < 2 ^ 40 }
{
    let order = order_of(alloc, over, by)?;
    let mut signs = signs_of(alloc, over.formula.vars(), last)?;
    decide_by(alloc, over, order, &mut signs, next, budget)
}

/// Decides by orders that keep values, and then again with these.
fn decide_twice(
    alloc: Global,
    over: &Crossed,
    schedule: &mut Schedule,
    next: u64,
    budget: u64,
) -> Result<Outcome, OutOfMemory>
    requires over { IsCrossed over.now }
    requires some { 0 < budget }
    requires past { length over.now.formula.now.clauses < next }
    requires next { next < 2 ^ 40 }
    requires budget { budget < 2 ^ 40 }
{
    decide_by_schedule(alloc, over, schedule, next, budget)?;
    decide_by_schedule(alloc, over, schedule, next, budget)
}

/// Asks what may be asked.
fn ask(
    alloc: Global,
    over: &Crossed,
    way: Way,
    next: u64,
    budget: u64,
) -> Result<Outcome, OutOfMemory>
    requires over { IsCrossed over.now }
    requires some { 0 < budget }
    requires past { length over.now.formula.now.clauses < next }
    requires next { next < 2 ^ 40 }
    requires budget { budget < 2 ^ 40 }
{
    match way {
        Way::Usual => decide(alloc, over, next, budget),
        Way::One { by, last } => decide_by_one(alloc, over, by, last, next, budget),
        Way::Schedule { first, further } => {
            let mut schedule = Schedule::new();
            schedule.third = None;
            schedule.first = first;
            schedule.further = further;
            decide_by_schedule(alloc, over, &mut schedule, next, budget)
        }
        Way::Activity { first, further } => {
            let mut schedule = Schedule::new();
            schedule.by = By::Activity;
            schedule.second = By::Activity;
            schedule.third = None;
            schedule.first = first;
            schedule.further = further;
            decide_by_schedule(alloc, over, &mut schedule, next, budget)
        }
        Way::WithActivity { first, further } => {
            let mut schedule = Schedule::new();
            schedule.first = first;
            schedule.further = further;
            decide_by_schedule(alloc, over, &mut schedule, next, budget)
        }
        Way::Cores { first, further } => {
            let mut schedule = Schedule::for_cores();
            schedule.first = first;
            schedule.further = further;
            decide_by_schedule(alloc, over, &mut schedule, next, budget)
        }
        Way::All { first, further } => {
            let mut schedule = Schedule::for_cores();
            schedule.second = By::Number;
            schedule.third = Some(By::Connection);
            schedule.first = first;
            schedule.further = further;
            decide_by_schedule(alloc, over, &mut schedule, next, budget)
        }
        Way::Twice { first, further } => {
            let mut schedule = Schedule::keeping(alloc, over.formula.vars(), first, further)?;
            decide_twice(alloc, over, &mut schedule, next, budget)
        }
    }
}

/// The variables in an order.
fn order_of(alloc: Global, over: &Crossed, by: By) -> Result<Vec<u32>, OutOfMemory>
    requires { IsCrossed over.now }
    ensures { IfOk result (λ vars. IsOrderOver over.now vars.items) }
{
    match by {
        By::Number | By::Activity => Ok(ascending(alloc, over)?),
        By::Connection => Ok(by_connection(alloc, over)?),
        By::Occurrences => Ok(by_occurrences(alloc, over)?),
    }
}

/// The last values of variables up to n, or true.
fn signs_of(alloc: Global, n: u32, last: bool) -> Result<Signs, OutOfMemory> {
    if last {
        Signs::last(alloc, n)
    } else {
        Ok(Signs::True)
    }
}

/// Refuses a question that may not be asked.
fn check_question(asked: &Asked, next: u64, budget: u64) -> Result<(), Fail>
    ensures part { OnOk result (IsTrue (are_positions asked.now.formula.now asked.now.part.now)) }
    ensures some { OnOk result (0 < budget) }
    ensures past { OnOk result (length asked.now.formula.now.clauses < next) }
    ensures next { OnOk result (next < 2 ^ 40) }
    ensures budget { OnOk result (budget < 2 ^ 40) }
{
    if !has_part(asked.formula, asked.part) || budget == 0 || budget > 1_000_000_000 {
        return Err(Fail::from("no part, or no budget"));
    }
    if next <= u64::from(asked.formula.len()) || next > 1_000_000_000 {
        return Err(Fail::from("the first number is too small or too large"));
    }
    Ok(())
}

/// The answer, where the question may be asked.
pub(crate) fn answer(
    alloc: Global,
    asked: &Asked,
    way: Way,
    next: u64,
    budget: u64,
) -> Result<Outcome, Fail> {
    check_question(asked, next, budget)?;
    let blocked = set_of(alloc, asked.formula.vars(), asked.blocked)?;
    let over = Crossed {
        formula: asked.formula,
        part: asked.part,
        blocked: &blocked,
    };
    Ok(ask(alloc, &over, way, next, budget)?)
}

/// The answer by a schedule that may have kept values of earlier questions, where the question may be asked.
pub(crate) fn answer_by_schedule(
    alloc: Global,
    asked: &Asked,
    schedule: &mut Schedule,
    next: u64,
    budget: u64,
) -> Result<Outcome, Fail> {
    check_question(asked, next, budget)?;
    let blocked = set_of(alloc, asked.formula.vars(), asked.blocked)?;
    let over = Crossed {
        formula: asked.formula,
        part: asked.part,
        blocked: &blocked,
    };
    Ok(decide_by_schedule(alloc, &over, schedule, next, budget)?)
}

fn put_order(name: &str, vars: &[u32], out: &mut String) -> Result<(), AllocError> {
    writeln!(out, "{name}: {vars:?}")
}

/// Writes the variables of the crossed clauses in each order.
fn put_each(alloc: Global, over: &Crossed, out: &mut String) -> Result<(), OutOfMemory>
    requires { IsCrossed over.now }
{
    let vars = ascending(alloc, over)?;
    put_order("ascending", vars.as_slice(), out)?;
    let vars = by_connection(alloc, over)?;
    put_order("by connection", vars.as_slice(), out)?;
    let vars = by_occurrences(alloc, over)?;
    Ok(put_order("by occurrences", vars.as_slice(), out)?)
}

/// Writes the variables of the crossed clauses in each order, where there are such clauses.
pub(crate) fn put_orders(alloc: Global, asked: &Asked, out: &mut String) -> Result<(), Fail> {
    if !has_part(asked.formula, asked.part) {
        return Err(Fail::from("no part"));
    }
    let blocked = set_of(alloc, asked.formula.vars(), asked.blocked)?;
    let over = Crossed {
        formula: asked.formula,
        part: asked.part,
        blocked: &blocked,
    };
    Ok(put_each(alloc, &over, out)?)
}
