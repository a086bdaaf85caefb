//! The lines of the scripts, as commands, and the formulas that they have.
use crate::built::{built, is_shape};
use lk_model::{Budget, Formula};
use lk_samples::formula_of_text;
use std::alloc::Global;
use std::test::Fail;

/// A line: its word, the numbers after it, and the texts after those.
#[derive(Drop)]
pub(crate) struct Command<'a> {
    pub word: &'a str,
    /// The numbers; one that is not there is 0.
    pub first: u32,
    pub second: u32,
    pub third: u32,
    /// All numbers but the first one.
    pub others: &'a str,
    /// What stands after the first semicolon.
    pub text: &'a str,
    /// What stands after the first semicolon up to the second one, and what stands after that.
    pub clauses: &'a str,
    pub more: &'a str,
}

fn number(word: &str) -> u32 {
    word.trim().parse().unwrap_or(0)
}

/// The command of a line.
pub(crate) fn command_of(line: &str) -> Command<'_> {
    let (word, rest) = line.split_once(" ").unwrap_or((line, ""));
    let (numbers, text) = rest.split_once(";").unwrap_or((rest, ""));
    let (first, others) = numbers.trim().split_once(" ").unwrap_or((numbers, ""));
    let (second, third) = others.trim().split_once(" ").unwrap_or((others, ""));
    let (clauses, more) = text.split_once(";").unwrap_or((text, ""));
    Command {
        word,
        first: number(first),
        second: number(second),
        third: number(third),
        others,
        text,
        clauses,
        more,
    }
}

/// The formula of a command: a built one, or that of its clauses, over as many variables as its first number says, and
/// over 40 where that counts groups.
pub(crate) fn formula(alloc: Global, c: &Command<'_>) -> Result<Formula, Fail> {
    if is_shape(c.word) {
        return built(alloc, c.word, c.first);
    }
    let vars = if c.word == "groups" { 40 } else { c.first };
    formula_of_text(alloc, vars, c.clauses)
}

/// The budget of `conflicts` learned clauses.
pub(crate) fn budget_of(conflicts: u32) -> Result<Budget, Fail> {
    Ok(Budget::new(u64::from(conflicts)).ok_or("no budget")?)
}
