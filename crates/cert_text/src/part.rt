//! What was read of the lines between the front of a document and its clauses: a kind for each body.
ghost use Rattle.std.specs.Prelude.{◌≡◌, ◌≤◌, IfOk, false};
ghost use Rattle.lk_model.specs.Limits.{max_vars};
ghost use Rattle.line_text.specs.Fields.{fields};
ghost use Rattle.line_text.specs.Taking.{IsTaken};
ghost use Rattle.cert_text.specs.Parts.{part_of, part_next, may_end, is_finished, body_of, rounds_of};

use crate::read_linear::{LinearPart, take_linear};
use crate::read_matching::{MatchingPart, take_matching};
use crate::read_pure::{PurePart, take_pure};
use lk_model::{Body, List, OutOfMemory, Round};
use round_text::{RoundsPart, all_rounds, fresh_rounds, take_rounds};
use std::alloc::Global;

/// The lines of a body, as far as they were read.
#[derive(Drop)]
pub(crate) enum Part {
    Pure(PurePart),
    Matching(MatchingPart),
    Linear(LinearPart),
    General(RoundsPart),
    Unfinished(RoundsPart),
}

/// The body of which no line was read, by the word for it in the first line of a document.
pub(crate) fn part_of(alloc: Global, word: &[u8]) -> Option<Part>
    ensures { result ≡ part_of word.now }
{
    if word == b"pure".as_slice() {
        return Some(Part::Pure(PurePart {
            ordered: false,
            order: List::new(alloc),
            pairs: List::new(alloc),
        }));
    }
    if word == b"matching".as_slice() {
        return Some(Part::Matching(MatchingPart {
            own: List::new(alloc),
            rows: List::new(alloc),
        }));
    }
    if word == b"linear".as_slice() {
        return Some(Part::Linear(LinearPart {
            stages: List::new(alloc),
            dual: List::new(alloc),
            units: List::new(alloc),
        }));
    }
    if word == b"general".as_slice() {
        return Some(Part::General(fresh_rounds(alloc)));
    }
    if word == b"unfinished".as_slice() {
        return Some(Part::Unfinished(fresh_rounds(alloc)));
    }
    None
}

/// Takes the line if it is a next one of the body, over n variables and m clauses.
pub(crate) fn take_part(
    alloc: Global,
    part: &mut Part,
    line: &[u8],
    n: u32,
    m: u32,
) -> Result<bool, OutOfMemory>
    requires { n ≤ max_vars }
    ensures { IfOk result (λ taken. IsTaken (part_next n m part.old (fields line.now)) taken part.new) }
{
    match part {
        Part::Pure(pure) => take_pure(alloc, pure, line, n, m),
        Part::Matching(matching) => take_matching(matching, line, n, m),
        Part::Linear(linear) => take_linear(alloc, linear, line, n, m),
        Part::General(rounds) => take_rounds(alloc, rounds, line, n, m, 0 < m),
        Part::Unfinished(rounds) => take_rounds(alloc, rounds, line, n, m, true),
    }
}

/// Whether the lines of the body may end here.
pub(crate) fn may_end(part: &Part) -> bool
    ensures { result ≡ may_end part.now }
{
    match part {
        Part::Pure(pure) => pure.ordered,
        Part::Matching(_) => true,
        Part::Linear(_) => true,
        Part::General(rounds) => !rounds.is_open,
        Part::Unfinished(rounds) => rounds.is_open,
    }
}

/// Whether the document is a finished one.
pub(crate) fn is_finished(part: &Part) -> bool
    ensures { result ≡ is_finished part.now }
{
    match part {
        Part::Unfinished(_) => false,
        _ => true,
    }
}

/// The body of a finished document.
pub(crate) fn body_of(part: Part) -> Result<Body, OutOfMemory>
    ensures { IfOk result (λ body. body ≡ body_of part) }
{
    match part {
        Part::Pure(pure) => Ok(Body::Pure {
            order: pure.order,
            pairs: pure.pairs,
        }),
        Part::Matching(matching) => Ok(Body::Matching {
            own: matching.own,
            rows: matching.rows,
        }),
        Part::Linear(linear) => Ok(Body::Linear {
            stages: linear.stages,
            dual: linear.dual,
            units: linear.units,
        }),
        Part::General(rounds) => Ok(Body::General {
            rounds: all_rounds(rounds)?,
        }),
        Part::Unfinished(rounds) => Ok(Body::General {
            rounds: all_rounds(rounds)?,
        }),
    }
}

/// The rounds of an unfinished document.
pub(crate) fn rounds_of(part: Part) -> Result<List<Round>, OutOfMemory>
    requires { is_finished part ≡ false }
    ensures { IfOk result (λ rounds. rounds ≡ rounds_of part) }
{
    match part {
        Part::Unfinished(rounds) => all_rounds(rounds),
        _ => unreachable!(),
    }
}
