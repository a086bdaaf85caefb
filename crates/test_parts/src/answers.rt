//! Answers with each budget, on drawn formulas, and on the clauses of a core in each order.
ghost use Rattle.std.specs.Prelude.{◌<◌, ◌≤◌};

use crate::command::{Command, formula};
use crate::found::{Search, found, put_found};
use crate::judging::first_empty;
use lk_model::{Formula, Lit};
use lk_outside::OpenGate;
use lk_samples::{Numbers, drawn_formula, makes_clause, number_of, positions, push};
use plain_judge::{MOST_VARS, clause_at, has_model};
use std::alloc::{AllocError, Global};
use std::test::Fail;
use std::thread::Threads;

/// More learned clauses than any of these formulas needs.
const AMPLE: u32 = 600_000;

/// Of this many drawn clauses one is empty.
const EMPTY: u32 = 400;

/// How many clauses may be ordered.
const MOST_CLAUSES: u32 = 6;

/// Reports a core, or why there is none, with each of the budgets of a command.
pub(crate) fn tell_each<R: Threads + Sync>(
    rt: &R,
    alloc: Global,
    c: &Command<'_>,
    out: &mut String,
) -> Result<(), Fail> {
    let f = formula(alloc, c)?;
    put_each(rt, alloc, c, &f, out)
}

fn put_each<R: Threads + Sync>(
    rt: &R,
    alloc: Global,
    c: &Command<'_>,
    formula: &Formula,
    out: &mut String,
) -> Result<(), Fail> {
    for word in c.others.split_whitespace() {
        let conflicts: u32 = word.parse().unwrap_or(0);
        let s = Search {
            way: c.word,
            formula,
            conflicts,
        };
        put_line(rt, alloc, &s, out)?;
    }
    Ok(())
}

/// Writes what one worker finds, if there is such a budget, and ends the line.
fn put_line<R: Threads + Sync>(
    rt: &R,
    alloc: Global,
    s: &Search<'_>,
    out: &mut String,
) -> Result<(), Fail> {
    if s.conflicts == 0 {
        out.push_str("= no budget")?;
    } else {
        put_found(rt, alloc, &OpenGate, s, 1, out)?;
    }
    if !out.ends_with("\n") {
        out.push('\n')?;
    }
    Ok(())
}

/// What an answer is, and whether it is right.
fn split_answer(text: &str) -> (&str, &str) {
    text.split_once("; right ").unwrap_or((text, ""))
}

/// Reports what is found in a way with each budget up to 3^n, or 1,000, until it is finished, and whether each answer
/// is right, and one worker and two say the same.
pub(crate) fn tell_budgets<R: Threads + Sync>(
    rt: &R,
    alloc: Global,
    c: &Command<'_>,
    way: &str,
    out: &mut String,
) -> Result<(), Fail> {
    let f = formula(alloc, c)?;
    let s = Search {
        way,
        formula: &f,
        conflicts: 0,
    };
    put_budgets(rt, alloc, c, s, out)
}

/// 3^n, or 1,000.
fn most_of(n: u32) -> u32 {
    let mut most = 1u32;
    for _ in 0..n.min(10) {
        most = most.wrapping_mul(3).min(1000);
    }
    most
}

fn put_budgets<R: Threads + Sync>(
    rt: &R,
    alloc: Global,
    c: &Command<'_>,
    first: Search<'_>,
    out: &mut String,
) -> Result<(), Fail> {
    let (mut s, mut all_right) = (first, true);
    for conflicts in 1..most_of(c.first).saturating_add(1) {
        s.conflicts = conflicts;
        let tried = try_budget(rt, alloc, &s, out)?;
        all_right = all_right && tried.is_right;
        if tried.is_finished {
            return Ok(put_least(s.way, all_right, conflicts, c.second, out)?);
        }
    }
    out.push_str("= unfinished\n")?;
    Ok(())
}

/// Whether an answer is finished, and whether it is right.
#[derive(Drop)]
struct Tried {
    is_finished: bool,
    is_right: bool,
}

/// Tries a budget by one worker and by two, and writes the answer if it is finished.
fn try_budget<R: Threads + Sync>(
    rt: &R,
    alloc: Global,
    s: &Search<'_>,
    out: &mut String,
) -> Result<Tried, Fail> {
    let text = found(rt, alloc, s, 1)?;
    let same = found(rt, alloc, s, 2)? == text;
    let (answer, right) = split_answer(text.as_str());
    let is_finished = !answer.starts_with("= unfinished");
    if is_finished {
        out.push_str(answer)?;
    }
    Ok(Tried {
        is_finished,
        is_right: same && right == "true",
    })
}

/// Writes whether each answer was right, and that no budget below the least one is enough.
fn put_least(
    way: &str,
    all_right: bool,
    conflicts: u32,
    least: u32,
    out: &mut String,
) -> Result<(), AllocError> {
    let front = if way == "size" {
        "; each right "
    } else {
        "; right true; each before "
    };
    let below = least <= conflicts;
    writeln!(
        out,
        "{front}{all_right}; no budget below {least} is enough {below}"
    )
}

/// A formula that a seed draws for a command. Where cores are looked for, some clauses may be empty.
fn drawn(alloc: Global, c: &Command<'_>, way: &str, seed: u32) -> Result<Formula, Fail> {
    let n = c.first;
    if n == 0 || n > MOST_VARS {
        return Err(Fail::from("no variable, or too many"));
    }
    if way == "judged" {
        return drawn_formula(alloc, n, seed, c.second);
    }
    let mut formula = Formula::new(alloc, n)?;
    push_drawn(alloc, &mut formula, n, seed, c.second)?;
    Ok(formula)
}

/// Appends `count` drawn clauses, some of them empty.
fn push_drawn(
    alloc: Global,
    formula: &mut Formula,
    n: u32,
    seed: u32,
    count: u32,
) -> Result<(), Fail>
    requires some { 0 < n }
    requires few { n ≤ 1000000 }
{
    let mut numbers = Numbers::new(seed);
    for _ in 0..count {
        if numbers.below(EMPTY) == 0 {
            push(formula, &[])?;
        } else {
            push_clause(formula, numbers.literals(alloc, n, 3)?)?;
        }
    }
    Ok(())
}

/// Appends the literals, if they make a clause.
fn push_clause(formula: &mut Formula, clause: Vec<Lit>) -> Result<(), Fail> {
    if makes_clause(formula.vars(), clause.as_slice()) {
        formula.push_clause(clause.as_slice())?;
    }
    Ok(())
}

/// Whether the answer of `number` workers on a formula is finished and right, and a model just where there is one; and
/// that on a core with a small budget is right.
fn is_right<R: Threads + Sync>(
    rt: &R,
    alloc: Global,
    way: &str,
    formula: &Formula,
    number: u32,
) -> Result<bool, Fail> {
    let mut s = Search {
        way,
        formula,
        conflicts: AMPLE,
    };
    let text = found(rt, alloc, &s, number)?;
    let wanted = match way {
        _ if has_model(formula) => "= model",
        "judged" => "= refuted",
        _ => "= core",
    };
    s.conflicts = number;
    let few = found(rt, alloc, &s, 1)?;
    Ok(text.starts_with(wanted) && text.ends_with("right true") && few.ends_with("right true"))
}

/// How many drawn formulas have a model, how many an empty clause, and whether all answers are right.
#[derive(Drop)]
struct Seen {
    models: u32,
    empty: u32,
    right: bool,
}

impl Seen {
    /// Takes a formula, which `number` workers solve.
    fn take<R: Threads + Sync>(
        &mut self,
        rt: &R,
        alloc: Global,
        way: &str,
        f: &Formula,
        number: u32,
    ) -> Result<(), Fail> {
        self.models = self.models.wrapping_add(u32::from(has_model(f)));
        self.empty = self.empty.wrapping_add(u32::from(first_empty(f) > 0));
        let right = is_right(rt, alloc, way, f, number)?;
        self.right = self.right && right;
        Ok(())
    }

    fn put(&self, count: u32, way: &str, out: &mut String) -> Result<(), AllocError> {
        write!(out, "= {} of {count} have a model", self.models)?;
        if way == "kind" {
            write!(out, ", {} an empty clause", self.empty)?;
        }
        writeln!(out, "; right {}", self.right)
    }
}

fn take_seed<R: Threads + Sync>(
    rt: &R,
    alloc: Global,
    c: &Command<'_>,
    way: &str,
    seed: u32,
    told: &mut Seen,
) -> Result<(), Fail> {
    let f = drawn(alloc, c, way, seed)?;
    told.take(rt, alloc, way, &f, 1 + seed % 3)
}

/// Reports how many drawn formulas have a model, and an empty clause where cores are looked for, and whether all
/// answers are right.
pub(crate) fn tell_drawn<R: Threads + Sync>(
    rt: &R,
    alloc: Global,
    c: &Command<'_>,
    way: &str,
    out: &mut String,
) -> Result<(), Fail> {
    let mut told = Seen {
        models: 0,
        empty: 0,
        right: true,
    };
    let count = number_of(c.text);
    for seed in 0..count {
        take_seed(rt, alloc, c, way, seed, &mut told)?;
    }
    Ok(told.put(count, way, out)?)
}

/// The clauses in the order of a number below their number of orders.
fn ordered(alloc: Global, f: &Formula, order: u32) -> Result<Formula, Fail> {
    let mut formula = f.empty(alloc);
    push_ordered(&mut formula, f, &mut positions(alloc, f)?, order)?;
    Ok(formula)
}

/// Appends the clauses in the order of a number: its digits, of which each counts as many as clauses are left, choose
/// one of these after the other.
fn push_ordered(
    formula: &mut Formula,
    f: &Formula,
    unused: &mut Vec<u32>,
    order: u32,
) -> Result<(), Fail> {
    let mut rest = order;
    for count in (1..f.len() + 1).rev() {
        let place = (rest % count) as usize;
        rest /= count;
        if place < unused.len() {
            push(formula, clause_at(f, unused.remove(place)))?;
        }
    }
    Ok(())
}

/// Reports whether a core of all clauses is found in each of their orders.
pub(crate) fn tell_orders<R: Threads + Sync>(
    rt: &R,
    alloc: Global,
    c: &Command<'_>,
    out: &mut String,
) -> Result<(), Fail> {
    let f = formula(alloc, c)?;
    put_orders(rt, alloc, &f, out)
}

fn put_orders<R: Threads + Sync>(
    rt: &R,
    alloc: Global,
    f: &Formula,
    out: &mut String,
) -> Result<(), Fail> {
    let (mut count, mut whole) = (1u32, true);
    for k in 1..f.len().min(MOST_CLAUSES) + 1 {
        count = count.wrapping_mul(k);
    }
    for order in 0..count {
        let is_whole = is_whole_in(rt, alloc, f, order)?;
        whole = whole && is_whole;
    }
    writeln!(
        out,
        "= {count} orders; a core of all clauses, right {whole}"
    )?;
    Ok(())
}

/// Whether a core of all clauses is found in an order of these.
fn is_whole_in<R: Threads + Sync>(
    rt: &R,
    alloc: Global,
    f: &Formula,
    order: u32,
) -> Result<bool, Fail> {
    let formula = ordered(alloc, f, order)?;
    let s = Search {
        way: "size",
        formula: &formula,
        conflicts: AMPLE,
    };
    is_whole_core(rt, alloc, &s)
}

fn is_whole_core<R: Threads + Sync>(rt: &R, alloc: Global, s: &Search<'_>) -> Result<bool, Fail> {
    let text = found(rt, alloc, s, 1)?;
    let wanted = format!(in alloc; "= core of {}; right true", s.formula.len())?;
    Ok(text == wanted)
}
