//! Asks the crates of the ground, as a script on standard input says, and prints what they return through a sink over
//! standard output.
//!
//! `@ ground` or `@ files` says what the lines after it ask. Each line is printed again, and after ` ->` what is
//! returned; a blank one, a head and a remark, which begins with `#`, have no answer.
//!
//! - `@ ground`: a word and the pieces that the call is asked about, with ` | ` between them. The expected answers can
//!   be worked out by hand from what the calls are to give.
//! - `@ files`: the shelf over files and the sink over streams. The expected answers are those of a plain program in
//!   Python over the same files.
//!   - `shelf CALLS` asks one shelf, with commas between the calls: `start NAME`, `read SIZE`, which shows the bytes of
//!     one piece, and `all SIZE`, which reads to the end in pieces of that size.
//!   - `sink NAME PIECES` writes the pieces into a file that is opened for writing, and is not made or cut for it.
//!   - `reader NAME PIECES` writes them into a file that is opened for reading alone.
//!   - `again TIMES LINE` is one of these lines, over files each of whose reads and writes is interrupted that many
//!     times before it is made.
//!   - `room TIMES SIZE PIECES` writes the pieces into that many bytes of memory, whose writes are interrupted so, and
//!     shows how many calls the stream had, and the bytes.
#![tactic(auto)]

mod assignments;
mod files;
mod ground;
mod interruptions;
mod memory;
mod model;
mod numbers;
mod occurrences;
mod parts;
mod shelves;
mod sinks;
mod sums;

use crate::sinks::print_all;
use lk_outside::StdSink;
use std::rt::Files;
use std::test::Fail;

/// A line of the script, with what is returned for it.
fn answered<R: Files + AllocGlobal>(
    rt: &R,
    is_about_files: bool,
    line: &str,
) -> Result<String, Fail> {
    let mut out = String::from_str(rt.alloc(), line)?;
    if !line.is_empty() && !line.starts_with("#") && !line.starts_with("@") {
        out.push_str(" ->")?;
        if is_about_files {
            files::tell(rt, rt.alloc(), line, &mut out)?;
        } else {
            ground::tell(rt, rt.alloc(), line, &mut out)?;
        }
    }
    out.push('\n')?;
    Ok(out)
}

fn main(rt: HostRuntime) -> Result<(), Fail> {
    let mut sink = StdSink::new(rt.stdout());
    let mut is_about_files = false;
    for line in rt.lines(rt.alloc()) {
        let line = line?;
        if line.starts_with("@") {
            is_about_files = line.as_str() == "@ files";
        }
        let text = answered(&rt, is_about_files, line.as_str())?;
        if print_all(&mut sink, text.as_bytes()).is_err() {
            return Err(Fail::from("standard output takes no more"));
        }
    }
    Ok(())
}
