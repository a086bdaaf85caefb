//! `@ answers`: what the check says of answers. The expected answers are those of a separate program, which judges whole
//! texts by the grammar, and models and chains by themselves. The commands are those of `reading`.
ghost use Rattle.std.specs.Prelude.{length, IsTrue};
ghost use Rattle.lk_model.specs.Documents.Answers.{is_answer};

use crate::kinds::put_stop;
use answer_check::{Answer, check_answer, read_answer};
use lk_model::{Formula, Kind, OutOfMemory};
use lk_samples::formula_of_text;
use std::alloc::{AllocError, Global};
use std::test::Fail;

/// Takes the formula of a line that has one, for which the next texts are answers.
pub(crate) fn take_formula(alloc: Global, line: &str, f: &mut Formula) -> Result<(), Fail> {
    if let Some(text) = line.strip_prefix("formula ") {
        let (n, clauses) = text.split_once(";").unwrap_or((text, ""));
        *f = formula_of_text(alloc, n.trim().parse()?, clauses)?;
    }
    Ok(())
}

/// Writes what the check says of a text for a formula, or where it stops.
pub(crate) fn put_checked(
    alloc: Global,
    f: &Formula,
    text: &[u8],
    out: &mut String,
) -> Result<(), AllocError> {
    match read_answer(alloc, text, f.vars(), f.len()) {
        Ok(answer) => put_check(alloc, f, &answer, out),
        Err(stop) => put_stop(stop, out),
    }
}

/// Writes that no check fails, or the first one that does.
fn put_check(
    alloc: Global,
    f: &Formula,
    answer: &Answer,
    out: &mut String,
) -> Result<(), AllocError>
    requires { IsTrue (is_answer f.now.vars (length f.now.clauses) answer.now) }
{
    match check_answer(alloc, f, answer) {
        Ok(Some(why)) => write!(out, "{} {}", word_of(why.kind), why.place),
        Ok(None) => out.push_str("accepted"),
        Err(OutOfMemory) => out.push_str("out of memory"),
    }
}

fn word_of(kind: Kind) -> &'static str {
    match kind {
        Kind::ModelFails => "model-fails",
        Kind::BadStep => "bad-step",
        Kind::KeptClause => "kept-clause",
        Kind::BadWithout => "bad-without",
        _ => "another-kind",
    }
}
