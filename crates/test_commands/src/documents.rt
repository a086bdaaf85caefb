//! What the checker says of texts, by several numbers of workers.
ghost use Rattle.std.specs.Prelude.{◌≤◌, IfOk, IsTrue};
ghost use Rattle.lk_model.specs.Documents.Form.{is_in_form};

use cert_text::read;
use lean_checker::{Verdict, check, put_verdict};
use lk_model::{Document, Formula, ReadStop};
use lk_outside::OpenGate;
use lk_samples::Meeting;
use std::alloc::{AllocError, Global};
use std::test::Fail;
use std::thread::Threads;

/// The document that the bytes are the text of.
pub(crate) fn document_of(alloc: Global, bytes: &[u8]) -> Result<Document, ReadStop>
    ensures { IfOk result (λ d. IsTrue (is_in_form d)) }
{
    read(alloc, bytes)
}

/// Writes the line that reports a verdict.
pub(crate) fn put_line(verdict: &Verdict, out: &mut String) -> Result<(), AllocError> {
    let text = put_verdict(verdict);
    out.push_str("= ")?;
    for byte in &text.bytes[..text.len] {
        out.push(char::from(*byte))?;
    }
    Ok(())
}

/// Reports the verdict of one, two and eight workers, which is one.
fn tell_verdict<R: Threads + Sync>(
    rt: &R,
    alloc: Global,
    f: &Formula,
    d: &Document,
    out: &mut String,
) -> Result<(), Fail>
    requires { IsTrue (is_in_form d.now) }
{
    let verdict = check(rt, alloc, &OpenGate, f, d, 1)?;
    if check(rt, alloc, &OpenGate, f, d, 2)? != verdict {
        out.push_str("= another verdict by two workers\n")?;
    }
    if check(rt, alloc, &OpenGate, f, d, 8)? != verdict {
        out.push_str("= another verdict by eight workers\n")?;
    }
    Ok(put_line(&verdict, out)?)
}

/// Reports the verdict of this many workers, and how often each half entered a gate that holds it each time until the
/// other one has entered as often, and whether it met the other one each time.
fn tell_meeting<R: Threads + Sync>(
    rt: &R,
    alloc: Global,
    f: &Formula,
    d: &Document,
    workers: u32,
    out: &mut String,
) -> Result<(), Fail>
    requires form { IsTrue (is_in_form d.now) }
    requires workers { 1 ≤ workers }
{
    let gate = Meeting::new();
    let verdict = check(rt, alloc, &gate, f, d, workers)?;
    put_line(&verdict, out)?;
    let (times, met) = (gate.times(), gate.met());
    writeln!(out, "= entered {times:?}; met {met:?}")?;
    Ok(())
}

/// Reports the verdict on the document that a text is, or the line at which it stops being one.
pub(crate) fn tell_text<R: Threads + Sync>(
    rt: &R,
    alloc: Global,
    meets: bool,
    f: &Formula,
    text: &str,
    out: &mut String,
) -> Result<(), Fail> {
    match document_of(alloc, text.as_bytes()) {
        Ok(d) if meets => {
            tell_meeting(rt, alloc, f, &d, 2, out)?;
            tell_meeting(rt, alloc, f, &d, 8, out)?;
        }
        Ok(d) => tell_verdict(rt, alloc, f, &d, out)?,
        Err(ReadStop::Line(line)) => writeln!(out, "= line {line}")?,
        Err(ReadStop::OutOfMemory) => out.push_str("= out of memory\n")?,
    }
    Ok(())
}
