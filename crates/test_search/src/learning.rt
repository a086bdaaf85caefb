//! Parts of formulas that are decided: what is returned, and whether it stands. Each model is tried on the clauses,
//! each log gone through, and each answer on a drawn formula compared with a search through all assignments. The orders
//! are those of `bench/connection.py`.
//!
//! A line is one of
//!
//!     case | NAME | VARS | CLAUSES | PART | BLOCKED | NEXT | BUDGET | WAY
//!     budgets | NAME | VARS | CLAUSES
//!     pigeons | HOLES | BUDGET | WAY
//!     chain | LENGTH
//!     drawn | SEED | COUNT | WAY
//!     orders | NAME | VARS | CLAUSES | PART | BLOCKED
//!     edges | HOLES | WAY | MOST
//!     kept | NAME | VARS | FIRST | FURTHER | BUDGET | CLAUSES | CLAUSES ..
//!
//! Commas stand between clauses, and a blank part is all positions. Of `budgets` each budget from 1 to 9 is tried. A chain
//! is one of implications that cannot all hold. Drawn formulas are compared with a search through all assignments
//! (`drawn`), by `decide` where there is no WAY, and else by `numbers`, `connection` or `occurrences`, with `last`
//! after it for the last values, or by `both FIRST FURTHER` for the numbers and the connection, `all FIRST FURTHER` for
//! three, or `twice FIRST FURTHER`. Of `edges` each budget up to MOST is tried on pigeons. The formulas of `kept` are
//! decided one after another by orders that keep values.
use crate::answers::put_decided;
use crate::asking::{Asked, Way, answer, answer_by_schedule, put_orders};
use crate::built::{implications, pigeons};
use crate::drawn::put_drawn;
use crate::edges::{ALL, USUAL, right_budgets};
use crate::texts::{number_of, part_of};
use cdcl_core::{By, Schedule};
use lk_model::Formula;
use lk_samples::{formula_of_text, numbers_of_text, part_of_text};
use std::alloc::Global;
use std::test::Fail;

/// Decides what is asked, and writes what is returned.
fn put_asked(
    alloc: Global,
    asked: &Asked,
    way: Way,
    next: u64,
    budget: u32,
    out: &mut String,
) -> Result<(), Fail> {
    let decided = answer(alloc, asked, way, next, u64::from(budget))?;
    put_decided(alloc, asked, next, decided, out)
}

/// Decides a whole formula with these budgets, with steps numbered from past its positions.
fn put_whole(
    alloc: Global,
    f: &Formula,
    way: Way,
    budgets: &[u32],
    out: &mut String,
) -> Result<(), Fail> {
    let part = part_of_text(alloc, f, "")?;
    let asked = Asked {
        formula: f,
        part: part.as_slice(),
        blocked: &[],
    };
    for budget in budgets {
        put_asked(alloc, &asked, way, u64::from(f.len()) + 1, *budget, out)?;
    }
    Ok(())
}

/// Decides the part of a formula that the text `PART | BLOCKED | NEXT | BUDGET` has, or writes the orders of its variables.
fn put_part(
    alloc: Global,
    kind: &str,
    f: &Formula,
    text: &str,
    out: &mut String,
) -> Result<(), Fail> {
    let (part, text) = part_of(text);
    let (blocked, text) = part_of(text);
    let (next, text) = part_of(text);
    let (budget, way) = part_of(text);
    let part = part_of_text(alloc, f, part)?;
    let blocked = numbers_of_text(alloc, blocked)?;
    let asked = Asked {
        formula: f,
        part: part.as_slice(),
        blocked: blocked.as_slice(),
    };
    if kind == "orders" {
        return put_orders(alloc, &asked, out);
    }
    put_asked(
        alloc,
        &asked,
        way_of(way.trim()),
        u64::from(number_of(next)),
        number_of(budget),
        out,
    )
}

/// Decides the formula of `NAME | VARS | CLAUSES | ..`.
fn put_case(alloc: Global, kind: &str, text: &str, out: &mut String) -> Result<(), Fail> {
    let (name, text) = part_of(text);
    let (vars, text) = part_of(text);
    let (clauses, text) = part_of(text);
    writeln!(out, "== {}", name.trim())?;
    let f = formula_of_text(alloc, number_of(vars), clauses)?;
    if kind == "budgets" {
        return put_whole(alloc, &f, Way::Usual, &[1, 2, 3, 4, 5, 6, 7, 8, 9], out);
    }
    put_part(alloc, kind, &f, text, out)
}

/// The formula of one pigeon more than there are holes.
fn pigeons_of(alloc: Global, holes: u32) -> Result<Formula, Fail> {
    let clauses = pigeons(alloc, holes)?;
    let vars = holes.saturating_mul(holes.saturating_add(1));
    formula_of_text(alloc, vars, clauses.as_str())
}

/// Decides a formula of pigeons: `HOLES | BUDGET | WAY`.
fn put_pigeons(alloc: Global, text: &str, out: &mut String) -> Result<(), Fail> {
    let (holes, text) = part_of(text);
    let (budget, way) = part_of(text);
    writeln!(out, "== one pigeon more than {} holes", holes.trim())?;
    let f = pigeons_of(alloc, number_of(holes))?;
    put_whole(alloc, &f, way_of(way.trim()), &[number_of(budget)], out)
}

/// Decides a chain of implications.
fn put_chain(alloc: Global, text: &str, out: &mut String) -> Result<(), Fail> {
    writeln!(out, "== a chain of {} implications", text.trim())?;
    let clauses = implications(alloc, number_of(text))?;
    let f = formula_of_text(alloc, number_of(text), clauses.as_str())?;
    put_whole(alloc, &f, Way::Usual, &[1], out)
}

/// The way that a text has.
pub(crate) fn way_of(text: &str) -> Way {
    let (word, text) = text.split_once(" ").unwrap_or((text, ""));
    let (first, further) = text.split_once(" ").unwrap_or((text, ""));
    let (first, further) = (u64::from(number_of(first)), u64::from(number_of(further)));
    let last = text == "last";
    match word {
        "numbers" => Way::One {
            by: By::Number,
            last,
        },
        "connection" => Way::One {
            by: By::Connection,
            last,
        },
        "occurrences" => Way::One {
            by: By::Occurrences,
            last,
        },
        "both" => Way::Schedule { first, further },
        "activity" => Way::Activity { first, further },
        "cores" => Way::Cores { first, further },
        "usual" => Way::WithActivity { first, further },
        "all" => Way::All { first, further },
        "twice" => Way::Twice { first, further },
        _ => Way::Usual,
    }
}

/// Decides drawn formulas: `SEED | COUNT | WAY`.
fn put_seed(alloc: Global, text: &str, out: &mut String) -> Result<(), Fail> {
    let (seed, text) = part_of(text);
    let (count, way) = part_of(text);
    let way = way.trim();
    if !way.is_empty() {
        writeln!(out, "== by {way}")?;
    }
    put_drawn(alloc, way_of(way), number_of(seed), number_of(count), out)
}

/// Of how many budgets the answer by a way is right.
fn right_of(alloc: Global, asked: &Asked, way: Way, most: u32) -> Result<u32, Fail> {
    match way {
        Way::All { .. } => right_budgets(alloc, asked, &ALL, way, most),
        _ => right_budgets(alloc, asked, &USUAL, way, most),
    }
}

/// Decides pigeons by a schedule with each budget: `HOLES | WAY | MOST`.
fn put_schedule(alloc: Global, text: &str, out: &mut String) -> Result<(), Fail> {
    let (holes, text) = part_of(text);
    let (way, most) = part_of(text);
    let (way, most) = (way.trim(), number_of(most));
    let f = pigeons_of(alloc, number_of(holes))?;
    let part = part_of_text(alloc, &f, "")?;
    let asked = Asked {
        formula: &f,
        part: part.as_slice(),
        blocked: &[],
    };
    let right = right_of(alloc, &asked, way_of(way), most)?;
    writeln!(out, "== pigeons by {way}: {right} of {most} budgets right")?;
    Ok(())
}

/// The order that begins.
fn leading(schedule: &Schedule) -> &'static str {
    match schedule.by {
        By::Number => "the numbers",
        By::Connection => "the connection",
        By::Occurrences => "the occurrences",
        By::Activity => "the activity",
    }
}

/// Decides a formula by orders that keep values, and writes which order begins with the next one.
fn put_formula(
    alloc: Global,
    f: &Formula,
    schedule: &mut Schedule,
    budget: u32,
    out: &mut String,
) -> Result<(), Fail> {
    let part = part_of_text(alloc, f, "")?;
    let asked = Asked {
        formula: f,
        part: part.as_slice(),
        blocked: &[],
    };
    let next = u64::from(f.len()) + 1;
    let decided = answer_by_schedule(alloc, &asked, schedule, next, u64::from(budget))?;
    put_decided(alloc, &asked, next, decided, out)?;
    writeln!(out, "next begin {}", leading(schedule))?;
    Ok(())
}

/// Decides the formulas that a text has between bars.
fn put_formulas(
    alloc: Global,
    n: u32,
    schedule: &mut Schedule,
    budget: u32,
    formulas: &str,
    out: &mut String,
) -> Result<(), Fail> {
    for clauses in formulas.split("|") {
        let f = formula_of_text(alloc, n, clauses)?;
        put_formula(alloc, &f, schedule, budget, out)?;
    }
    Ok(())
}

/// Decides formulas by the occurrences, the numbers and the connection, which keep values: `NAME | VARS | FIRST | FURTHER | BUDGET | CLAUSES | CLAUSES ..`.
fn put_kept(alloc: Global, text: &str, out: &mut String) -> Result<(), Fail> {
    let (name, text) = part_of(text);
    let (vars, text) = part_of(text);
    let (first, text) = part_of(text);
    let (further, text) = part_of(text);
    let (budget, formulas) = part_of(text);
    writeln!(out, "== {}", name.trim())?;
    let n = number_of(vars);
    let (first, further) = (u64::from(number_of(first)), u64::from(number_of(further)));
    let mut schedule = Schedule::keeping(alloc, n, first, further)?;
    schedule.second = By::Number;
    schedule.third = Some(By::Connection);
    put_formulas(alloc, n, &mut schedule, number_of(budget), formulas, out)
}

/// Writes what a line asks for.
pub(crate) fn tell(alloc: Global, line: &str, out: &mut String) -> Result<(), Fail> {
    let (kind, text) = part_of(line);
    match kind.trim() {
        "pigeons" => put_pigeons(alloc, text, out),
        "chain" => put_chain(alloc, text, out),
        "drawn" => put_seed(alloc, text, out),
        "edges" => put_schedule(alloc, text, out),
        "kept" => put_kept(alloc, text, out),
        kind => put_case(alloc, kind, text, out),
    }
}
