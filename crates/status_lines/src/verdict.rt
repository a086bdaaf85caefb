//! How a check ends.
ghost use Rattle.std.specs.Prelude.{◌≡◌, [], IfOk};
ghost use Rattle.lk_model.specs.Texts.PlainText.{line};
ghost use Rattle.lean_checker.specs.Verdicts.{verdict_words};
ghost use Rattle.status_lines.specs.Verdicts.{verdict_status};

use crate::ending::Ending;
use crate::status::Status;
use lean_checker::{Verdict, put_verdict};
use lk_model::OutOfMemory;
use std::alloc::Global;

/// The ending that reports a verdict: 0 if the document is accepted, 5 if it is unfinished, and 8 if a
/// check of it fails.
pub fn ending_of_verdict(alloc: Global, verdict: Verdict) -> Result<Ending, OutOfMemory>
    ensures status { IfOk result (λ e. e.status ≡ verdict_status verdict) }
    ensures written { IfOk result (λ e. e.written.items ≡ line (verdict_words verdict)) }
    ensures said { IfOk result (λ e. e.said.items ≡ []) }
{
    let line = put_verdict(&verdict);
    Ok(Ending {
        status: status_of_verdict(verdict),
        written: Vec::from_slice(alloc, &line.bytes[..line.len])?,
        said: Vec::new(alloc),
    })
}

// Its status.
fn status_of_verdict(verdict: Verdict) -> Status
    ensures { result ≡ verdict_status verdict }
{
    match verdict {
        Verdict::Accepted => Status::Done,
        Verdict::Unfinished(_) => Status::Budget,
        Verdict::No(_) => Status::Refused,
    }
}
