//! How `verify` ends.
ghost use Rattle.std.specs.Prelude.{◌≡◌, length, IfOk, IsTrue};
ghost use Rattle.lk_model.specs.Documents.Answers.{is_answer};
ghost use Rattle.command_words.specs.OptionRows.{values_of};
ghost use Rattle.command_endings.specs.Answering.{IsAnswer};
ghost use Rattle.command_endings.specs.Commands.Verify.{verdict_by};

use answer_check::check_answer;
use command_inputs::Answered;
use command_words::{Command, Options};
use lean_checker::Verdict;
use lk_model::{OutOfMemory, Why};
use status_lines::{Ending, ending_of_verdict};
use std::alloc::Global;

/// What the checks say of a formula and an answer.
pub fn answer(alloc: Global, read: &Answered, options: &Options<'_>) -> Result<Ending, OutOfMemory>
    requires form { IsTrue (is_answer read.now.formula.vars (length read.now.formula.clauses) read.now.answer) }
    ensures { IfOk result (IsAnswer Command.Verify (values_of options.now) (read.now.formula, (read.now.answer, tt))) }
{
    // (by it contracts see that the formula is one)
    let _vars = read.formula.vars();
    let why = check_answer(alloc, &read.formula, &read.answer)?;
    ending_of_verdict(alloc, verdict_by(why))
}

/// The verdict on an answer, by the first check that fails.
fn verdict_by(why: Option<Why>) -> Verdict
    ensures { result ≡ verdict_by why }
{
    match why {
        Some(why) => Verdict::No(why),
        None => Verdict::Accepted,
    }
}
