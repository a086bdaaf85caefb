//! The whole run of the program.
//!
//! The words of the command line make a request, which a command turns into two texts and a status. They are written
//! last, so nothing is written before all is decided.
ghost use Rattle.std.specs.Prelude.{◌≡◌, ◌≢◌, ◌⊎◌, [], map, IsTrue, IfOk, IfErr, IsErrAnd};
ghost use Rattle.lk_outside.specs.Causes.{HasCause, Rose};
ghost use Rattle.command_words.specs.Lawful.{request_of};
ghost use Rattle.status_lines.specs.Statuses.{code};
ghost use Rattle.status_lines.specs.declared.status.Status.{Status as AnyStatus};
ghost use Rattle.workbench.specs.Endings.{shelved, sunk, Allows, IsResult, IsCutOff, IsDecided, IsUnlessFailed};
ghost use Rattle.workbench.specs.Endings.{StopsAt, IsWell, ReadsNothing, TakesBoth, IsCutIn, EndsQuietly};
ghost use Rattle.workbench.specs.Headline.{IsRun};
ghost use Rattle.command_stops.specs.Stops.{IsFailure};

use crate::command;
use crate::output::write_both;
use cert_text::document_text_law;
use command_stops::Stop;
use command_words::request_of;
use lk_model::OutOfMemory;
use lk_outside::{Gate, Shelf, Sink};
use status_lines::{Ending, Status, code_of_failure, ending_of};
use std::alloc::Global;
use std::thread::Threads;

/// Does what the command line asks for, and returns the status. `headline_law` (`specs/Headline.antt`,
/// `specs/StatusClaim.antt`) says what that means if the inputs are visible and the sinks are empty. If an input is not
/// visible, what is said of 0, 5, 6, 7, 8, 10 and 20 is true of some formula, document, model, answer or edits; of 2
/// nothing is said.
/// - 0, 10, 20: `out` has the result, a model, a refutation; `check` and `verify` accept the input. `say` has nothing.
/// - 1, 2: the command line is not valid, or an input is outside its grammar. `say` has the first fault.
/// - 3, 4, 9: a call failed on the shelf, or on `out` or `say`, whose count of faults rose; memory ran out.
/// - 5: a budget was used up, and `out` may have an unfinished document; or the document that was read is unfinished.
/// - 6, 7, 8: the linear run has too wide a number; too large rows; a check fails: `out` has it, of `extend` `say`.
pub fn run<R: Threads + Sync, H: Shelf, O: Sink, E: Sink, G: Gate>(
    rt: &R,
    alloc: Global,
    words: &[&str],
    shelf: &mut H,
    out: &mut O,
    say: &mut E,
    gate: &G,
) -> u8
    // The run is one of which `headline_law` speaks: with each status but 4 the sinks took the texts of an ending that
    // the words and the inputs allow; if words and visible inputs decide the status, it is that one; or 3, and the
    // shelf's count of faults rose; or 4, and a sink's did; or 9.
    ensures runs { IsRun (map (λ w. w.now) words.now)
        (shelved (H.told shelf.old) (H.faults shelf.old) (H.faults shelf.new) (H.ailing shelf.new)
        (H.current shelf.new))
        (sunk (O.written out.old) (O.written out.new) (O.faults out.old) (O.faults out.new))
        (sunk (E.written say.old) (E.written say.new) (E.faults say.old) (E.faults say.new))
        result }

    // With 4 a sink failed before it took its whole text of such an ending; where it was `out`, `say` is as it was.
    ensures cut { result ≡ 4 → IsCutOff (map (λ w. w.now) words.now)
        (shelved (H.told shelf.old) (H.faults shelf.old) (H.faults shelf.new) (H.ailing shelf.new)
        (H.current shelf.new))
        (sunk (O.written out.old) (O.written out.new) (O.faults out.old) (O.faults out.new))
        (sunk (E.written say.old) (E.written say.new) (E.faults say.old) (E.faults say.new))
        (out.new ≡ out.old) (say.new ≡ say.old) }

    // Where no input is read, the whole shelf is as it was: of unlawful words, and of a command without inputs.
    ensures untouched { ReadsNothing (request_of (map (λ w. w.now) words.now)) → shelf.new ≡ shelf.old }

    // A text of such an ending that is empty leaves its sink as a whole as it was.
    ensures quiet { result ≢ 4 → EndsQuietly (map (λ w. w.now) words.now)
        (shelved (H.told shelf.old) (H.faults shelf.old) (H.faults shelf.new) (H.ailing shelf.new)
        (H.current shelf.new))
        (sunk (O.written out.old) (O.written out.new) (O.faults out.old) (O.faults out.new))
        (sunk (E.written say.old) (E.written say.new) (E.faults say.old) (E.faults say.new))
        result (out.new ≡ out.old) (say.new ≡ say.old) }
{
    match ending(rt, alloc, words, shelf, gate) {
        Ok(ending) => write_ending(
            out,
            say,
            ending.status,
            ending.written.as_slice(),
            ending.said.as_slice(),
        ),
        Err(OutOfMemory) => write_ending(out, say, Status::Memory, b"", b"leank: out of memory\n"),
    }
}

/// How the run ends. Memory may run out for a line that says it.
fn ending<R: Threads + Sync, H: Shelf, G: Gate>(
    rt: &R,
    alloc: Global,
    words: &[&str],
    shelf: &mut H,
    gate: &G,
) -> Result<Ending, OutOfMemory>
    ensures allowed { IfOk result (λ e. Allows (map (λ w. w.now) words.now)
        (shelved (H.told shelf.old) (H.faults shelf.old) (H.faults shelf.new) (H.ailing shelf.new)
        (H.current shelf.new))
        e.status e.written.items e.said.items) }
    ensures well { IfOk result (λ e. IsWell e.status (request_of (map (λ w. w.now) words.now)) (H.ailing shelf.new)) }
    ensures decided { IfOk result (λ e. (status : AnyStatus) →
        IsDecided (request_of (map (λ w. w.now) words.now)) (H.told shelf.old) status →
        IsUnlessFailed (code e.status) status (Rose (H.faults shelf.old) (H.faults shelf.new)) ⊥) }
    ensures untouched { ReadsNothing (request_of (map (λ w. w.now) words.now)) → shelf.new ≡ shelf.old }
{
    document_text_law();
    match perform(rt, alloc, words, shelf, gate) {
        Ok(ending) => Ok(ending),
        Err(stop) => ending_of(alloc, stop),
    }
}

/// Does what the words ask for.
fn perform<R: Threads + Sync, H: Shelf, G: Gate>(
    rt: &R,
    alloc: Global,
    words: &[&str],
    shelf: &mut H,
    gate: &G,
) -> Result<Ending, Stop>
    ensures ok { IfOk result (λ e. IsResult (request_of (map (λ w. w.now) words.now)) (H.told shelf.old)
        e.status e.written.items e.said.items) }
    ensures stop { IfErr result
        (StopsAt (map (λ w. w.now) words.now) (H.told shelf.old) (H.ailing shelf.new) (H.current shelf.new)) }
    ensures cause { HasCause (H.faults shelf.old) (H.faults shelf.new) (IsErrAnd result (λ s. s ≡ Stop.Read)) }
    ensures well { IsTrue (H.ailing shelf.new) → ReadsNothing (request_of (map (λ w. w.now) words.now)) ⊎
        IsErrAnd result IsFailure }
    ensures untouched { ReadsNothing (request_of (map (λ w. w.now) words.now)) → shelf.new ≡ shelf.old }
{
    match request_of(words) {
        Err(number) => Err(Stop::Words(number)),
        Ok(request) => command::perform(rt, alloc, gate, shelf, &request),
    }
}

/// Writes an ending, and returns the status with which the program ends.
fn write_ending<O: Sink, E: Sink>(
    out: &mut O,
    say: &mut E,
    status: Status,
    written: &[u8],
    said: &[u8],
) -> u8
    requires { status ≢ Status.WriteFault }
    ensures ended { result ≢ 4 → (result ≡ code status) × TakesBoth
        (sunk (O.written out.old) (O.written out.new) (O.faults out.old) (O.faults out.new))
        (sunk (E.written say.old) (E.written say.new) (E.faults say.old) (E.faults say.new))
        written.now said.now }
    ensures cut { result ≡ 4 → IsCutIn
        (sunk (O.written out.old) (O.written out.new) (O.faults out.old) (O.faults out.new))
        (sunk (E.written say.old) (E.written say.new) (E.faults say.old) (E.faults say.new))
        written.now said.now (say.new ≡ say.old) }
    ensures out_unused { written.now ≡ [] → out.new ≡ out.old }
    ensures say_unused { said.now ≡ [] → say.new ≡ say.old }
{
    match write_both(out, say, written, said) {
        Ok(()) => status.code(),
        Err(failed) => code_of_failure(failed),
    }
}
