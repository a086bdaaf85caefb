//! The parts of formulas, and groups of them.
use crate::command::{Command, formula};
use lk_model::{Formula, List};
use lk_samples::{numbers_of_text, set_of};
use par_parts::{part_groups, parts};
use std::alloc::{AllocError, Global};
use std::test::Fail;

/// The parts of a formula without the literals on the variables of a text.
fn lists_without(alloc: Global, f: &Formula, text: &str) -> Result<List<List<u32>>, Fail> {
    let variables = numbers_of_text(alloc, text)?;
    let set = set_of(alloc, f.vars(), variables.as_slice())?;
    let rest = f.without(alloc, &set)?;
    Ok(parts(alloc, &rest)?)
}

/// The parts of a formula, those without the literals on the variables of the last text, or its groups.
fn lists_of(alloc: Global, c: &Command<'_>, f: &Formula) -> Result<List<List<u32>>, Fail> {
    match c.word {
        "groups" => Ok(part_groups(alloc, f, c.first.max(1))?),
        "parts-without" => lists_without(alloc, f, c.more),
        _ => Ok(parts(alloc, f)?),
    }
}

/// Reports the parts of a formula, its groups, or how many parts it has.
pub(crate) fn tell_parts(alloc: Global, c: &Command<'_>, out: &mut String) -> Result<(), Fail> {
    let f = formula(alloc, c)?;
    tell_lists(alloc, c, &f, out)
}

fn tell_lists(alloc: Global, c: &Command<'_>, f: &Formula, out: &mut String) -> Result<(), Fail> {
    let lists = lists_of(alloc, c, f)?;
    let is_counted = matches!(c.word, "units" | "chain");
    Ok(put_lists(lists.as_slice(), is_counted, out)?)
}

fn put_lists(lists: &[List<u32>], is_counted: bool, out: &mut String) -> Result<(), AllocError> {
    if is_counted {
        return writeln!(out, "= {} parts", lists.len());
    }
    out.push('=')?;
    for list in lists {
        write!(out, " {:?}", list.as_slice())?;
    }
    out.push('\n')
}
