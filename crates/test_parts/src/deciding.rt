//! Whether the clauses of parts have a model.
ghost use Rattle.std.specs.Prelude.{◌≡◌, IsTrue};
ghost use Rattle.lk_model.specs.Formulas.Lean.{are_positions};
ghost use Rattle.part_copy.specs.Found.{are_filled};
ghost use Rattle.part_formula.specs.Decisions.{IsDecision};

use crate::command::{Command, budget_of, formula};
use crate::lines::put_model;
use check_rounds::misstated_step;
use lk_model::{Budget, Decided, Formula, OutOfMemory, Round};
use lk_samples::{part_of_text, put_round};
use part_formula::{Decision, decide_part};
use std::alloc::{AllocError, Global};
use std::test::Fail;

/// Whether no clause at the positions is empty.
pub(crate) fn is_filled(f: &Formula, part: &[u32]) -> bool
    requires { IsTrue (are_positions f.now part.now) }
    ensures { result ≡ are_filled f.now part.now }
{
    let mut filled = true;
    for position in part {
        filled = filled && !f.clause(*position).is_empty();
    }
    filled
}

/// Writes a round after a head.
pub(crate) fn put_decided(head: &str, round: &Round, out: &mut String) -> Result<(), AllocError> {
    out.push_str(head)?;
    put_round(round, out)
}

/// Writes what is decided: the literals of a model, or a round, and of a refutation the first step that does not state
/// the clause of its chain.
fn put_decision(
    alloc: Global,
    f: &Formula,
    part: &[u32],
    conflicts: Budget,
    decision: &Decision,
    out: &mut String,
) -> Result<(), OutOfMemory>
    requires part { IsTrue (are_positions f.now part.now) }
    requires decided { IsDecision f.now part.now conflicts decision.now }
{
    match decision {
        Decided::Model(set) => Ok(put_model(set.as_slice(), out)?),
        Decided::Refuted(round) => {
            put_decided("= refuted\n", round, out)?;
            let step = misstated_step(alloc, f, part, round)?;
            Ok(writeln!(out, "= misstated {step:?}")?)
        }
        Decided::Stopped(round) => Ok(put_decided("= stopped\n", round, out)?),
    }
}

/// Reports what is decided of some positions of a formula.
pub(crate) fn tell_decision(alloc: Global, c: &Command<'_>, out: &mut String) -> Result<(), Fail> {
    let f = formula(alloc, c)?;
    tell_text(alloc, &f, c, out)
}

fn tell_text(alloc: Global, f: &Formula, c: &Command<'_>, out: &mut String) -> Result<(), Fail> {
    let part = part_of_text(alloc, f, c.more)?;
    tell_part(alloc, f, &part, c.second, out)
}

fn tell_part(
    alloc: Global,
    f: &Formula,
    part: &[u32],
    conflicts: u32,
    out: &mut String,
) -> Result<(), Fail>
    requires { IsTrue (are_positions f.now part.now) }
{
    if !is_filled(f, part) {
        return Err(Fail::from("an empty clause"));
    }
    let budget = budget_of(conflicts)?;
    let decision = decide_part(alloc, f, part, budget)?;
    Ok(put_decision(alloc, f, part, budget, &decision, out)?)
}
