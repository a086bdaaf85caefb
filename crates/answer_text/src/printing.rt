//! Printing answers: the literals of a model, the rounds of a refutation, or the text of a core.
ghost use Rattle.std.specs.Prelude.{◌≡◌, ◌++◌, IfOk, OnOk};
ghost use Rattle.std.specs.List.{flat_map};
ghost use Rattle.lk_model.specs.Texts.PlainText.{line};
ghost use Rattle.lk_model.specs.Documents.Answers.{answer_lines, answer_text};
ghost use Rattle.lk_model.specs.declared.answer.Answer.TheVariants.{Model, Refuted};

use crate::core_printing::put_core;
use line_text::{put, put_clause_line};
use lk_model::{Answer, Lit, OutOfMemory, Round};
use round_text::put_round;
use std::alloc::Global;

/// The one text of an answer, in form or not. Fails only if memory for the text runs out.
pub fn print_answer(alloc: Global, answer: &Answer) -> Result<Vec<u8>, OutOfMemory>
    ensures { IfOk result (λ text. text.items ≡ answer_text answer.now) }
{
    let mut out = Vec::new(alloc);
    match answer {
        Answer::Model(lits) => put_model(&mut out, lits.as_slice())?,
        Answer::Refuted(round) => put_refutation(&mut out, round)?,
        Answer::Core(core) => put_core(&mut out, core)?,
    }
    Ok(out)
}

/// Appends the lines of a model.
fn put_model(out: &mut Vec<u8>, lits: &[Lit]) -> Result<(), OutOfMemory>
    ensures { OnOk result (out.new.items ≡ out.old.items ++ flat_map line (answer_lines (Model lits.now))) }
{
    put(out, b"s SATISFIABLE\n")?;
    put(out, b"v ")?;
    put_clause_line(out, lits)
}

/// Appends the lines of a refutation.
fn put_refutation(out: &mut Vec<u8>, round: &Round) -> Result<(), OutOfMemory>
    ensures { OnOk result (out.new.items ≡ out.old.items ++ flat_map line (answer_lines (Refuted round.now))) }
{
    put(out, b"s UNSATISFIABLE\n")?;
    put_round(out, round)
}
