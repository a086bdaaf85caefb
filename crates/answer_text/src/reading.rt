//! Reading answers.
ghost use Rattle.std.specs.Prelude.{◌≡◌, ◌≤◌, IfOk, IfErr, length};
ghost use Rattle.lk_model.specs.Limits.{max_vars, max_clauses};
ghost use Rattle.line_text.specs.DraftReading.{IsCompletedBy};
ghost use Rattle.line_text.specs.LineReading.{CanComplete};
ghost use Rattle.lk_model.specs.Documents.Answers.{IsAnswerText};
ghost use Rattle.answer_text.specs.ReadAnswers.{IsStopAt, ReadsAnswers};
ghost use Rattle.answer_text.specs.Drafts.{draft_lines, answer_drafts, IsRead};

use crate::draft::{Draft, finish, take_line};
use line_text::{LineReader, read_lines};
use lk_model::{Answer, OutOfMemory, ReadStop};
use std::alloc::Global;

/// Reads an answer for these numbers of variables and clauses, line by line. It keeps what was read.
#[derive(Drop)]
pub struct AnswerReader {
    draft: Draft,
    vars: u32,
    clauses: u32,
}

impl LineReader for AnswerReader {
    type Value = Answer;

    ghost fits = { λ r. IsRead r.vars r.clauses r.draft };

    ghost count = { λ r. length (draft_lines r.draft) };

    ghost completes = { λ r. IsCompletedBy (answer_drafts r.vars r.clauses) r.draft };

    fn take(&mut self, alloc: Global, line: &[u8]) -> Result<bool, OutOfMemory> {
        take_line(alloc, &mut self.draft, line, self.vars, self.clauses)
    }

    fn finish(self) -> Result<Option<Answer>, OutOfMemory> {
        Ok(finish(self.draft))
    }
}

/// The answer for n variables and m clauses that has this text. Other bytes are refused with the first line in
/// which no answer's text can go on, counted from 1. A last line without its byte 10 is such a line; if the
/// text ends too early, so is the line after its last one. The other error says that memory ran out.
pub fn read_answer(alloc: Global, bytes: &[u8], n: u32, m: u32) -> Result<Answer, ReadStop>
    requires vars { n ≤ max_vars }
    requires clauses { m ≤ max_clauses }
    ensures answer { IfOk result (IsAnswerText n m bytes.now) }
    ensures stop { IfErr result (IsStopAt n m bytes.now) }
{
    read_lines(alloc, answer_reader(n, m), bytes)
}

/// A reader that has read no line. The texts that it reads are those of answers for n variables and m
/// clauses, and it stops where they do.
pub fn answer_reader(n: u32, m: u32) -> AnswerReader
    requires vars { n ≤ max_vars }
    requires clauses { m ≤ max_clauses }
    ensures fits { ⟦<AnswerReader as LineReader>⟧.fits result }
    ensures first { ⟦<AnswerReader as LineReader>⟧.count result ≡ 0 }
    ensures completed { CanComplete (⟦<AnswerReader as LineReader>⟧.completes result) }
    ensures answers { ReadsAnswers n m (⟦<AnswerReader as LineReader>⟧.completes result) }
{
    AnswerReader {
        draft: Draft::Nothing,
        vars: n,
        clauses: m,
    }
}
