//! The checks of a general document.
ghost use Rattle.std.specs.Prelude.{◌≡◌, IfOk, IsTrue, Some};
ghost use Rattle.lk_model.specs.Formulas.Crossed.{no_variable};
ghost use Rattle.lk_model.specs.Documents.Form.{is_done_in_form};
ghost use Rattle.lk_model.specs.Checks.Check.{first_of};
ghost use Rattle.lk_model.specs.Checks.Checks.{class_checks};
ghost use Rattle.lk_model.specs.declared.document.Body.TheVariants.{General};
ghost use Rattle.lean_checker.specs.Accepted.{HasSizes};

use crate::common::failure;
use check_rounds::{bad_step, blocks_of, not_blocked};
use check_tables::Workers;
use lk_model::{DoneDocument, Formula, Kind, OutOfMemory, Round, Why};
use lk_outside::Gate;
use std::alloc::Global;
use std::thread::Threads;

/// The first failing check of those of the class general.
pub(crate) fn general_failure<R: Threads + Sync, G: Gate>(
    workers: &Workers<R, G>,
    alloc: Global,
    f: &Formula,
    d: &DoneDocument,
    rounds: &[Round],
) -> Result<Option<Why>, OutOfMemory>
    requires form { IsTrue (is_done_in_form d.now) }
    requires body { d.now.body ≡ General rounds.now }
    requires sizes { HasSizes f.now d.now }
    ensures { IfOk result (λ why. why ≡ first_of (class_checks no_variable f.now d.now (General rounds.now))) }
{
    let blocks = blocks_of(alloc, f, rounds)?;
    if let Some(number) = bad_step(workers, alloc, f, d.kept.as_slice(), rounds, &blocks)? {
        return Ok(Some(Why {
            kind: Kind::BadStep,
            place: number,
        }));
    }
    match not_blocked(workers, alloc, f, d, rounds, &blocks)? {
        Some(variable) => Ok(failure(Kind::NotBlocked, variable)),
        None => Ok(None),
    }
}
