//! leank reduces a formula in DIMACS CNF to its lean kernel, and writes it with proof.
#![tactic(auto)]

use lk_outside::{FileShelf, OpenGate, StdSink};
use std::alloc::{AllocError, Global};
use std::env;
use std::io::ErrorKind;
use std::process::ExitCode;

/// The status if a word of the command line is no text. No line reports it.
const WORDS: u8 = 1;

/// The status if memory runs out for the words. No line says so.
const MEMORY: u8 = 9;

fn main(rt: HostRuntime) -> ExitCode {
    let alloc = rt.alloc();
    let args = match env::args(&rt) {
        Ok(args) => args,
        Err(e) if e.kind() == ErrorKind::OutOfMemory => return ExitCode::from(MEMORY),
        Err(_) => return ExitCode::from(WORDS),
    };
    let Ok(words) = args.skip(1).collect::<Vec<String>>(alloc) else {
        return ExitCode::from(MEMORY)
    };
    let Ok(texts) = lent(alloc, words.as_slice()) else {
        return ExitCode::from(MEMORY)
    };
    let mut shelf = FileShelf::new(&rt, alloc);
    let mut out = StdSink::new(rt.stdout());
    let mut say = StdSink::new(rt.stderr());
    let status = workbench::run(
        &rt,
        alloc,
        texts.as_slice(),
        &mut shelf,
        &mut out,
        &mut say,
        &OpenGate,
    );
    ExitCode::from(status)
}

/// Lends the words as texts.
fn lent<'a>(alloc: Global, words: &'a [String]) -> Result<Vec<&'a str>, AllocError> {
    let mut texts = Vec::new(alloc);
    for word in words {
        texts.push(word.as_str())?;
    }
    Ok(texts)
}
