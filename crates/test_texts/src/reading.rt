//! `@ reading` and `@ answers`: where the reading of a text stops, or that it is printed again as the same text; and of
//! answers what the check says. The expected answers to documents are those of a separate reader, which goes by the
//! tables of the format; those to models are those of a plain program.
//!
//! - `base TEXT` reads a text, and takes it for the next lines.
//! - `change OLD|NEW` reads the base with NEW in the place of OLD.
//! - `cuts` reads each beginning of the base, from no byte to all but one. `swaps`, `drops` and `doubles` read the
//!   base with each line exchanged with the next one, left out, and written twice.
//! - `long TIMES WORD|TEXT` reads a text in which TIMES times the word stands in the place of `*`.
//! - `model N TEXT` reads the text of a model over the variables from 1 to N. The answer is the literals that
//!   are true, by their variables, or the line at which the text stops.
//! - `endless N TEXT|MORE` feeds the text, and then more of it again and again, 1,000 times at most, up to the first
//!   piece that is refused. The answer is that to a model, and how many pieces of more were taken.
//! - `formula N; CLAUSES` says for which formula the next texts are answers, with commas between its clauses.
//! - `again TEXT` reads a text for the formula, and checks nothing. `limits TEXT` does so for 1,000,000 variables and
//!   4,000,000 clauses.
//!
//! Each text is also read in pieces of 1, 2, 3, 7 and 65,536 bytes. If the answer is another one then, it is `otherwise
//! in pieces of` that size.
use crate::kinds::{Kind, told_of};
use crate::models::{numbered, tell_endless};
use crate::spelled::{bytes_of, changed};
use crate::variants::{Style, put_cuts, put_variants};
use std::alloc::{AllocError, Global};

/// Writes what is returned for a line.
pub(crate) fn tell(
    alloc: Global,
    kind: Kind,
    base: &str,
    line: &str,
    out: &mut String,
) -> Result<(), AllocError> {
    let (word, rest) = line.split_once(" ").unwrap_or((line, ""));
    if word == "formula" {
        return Ok(());
    }
    out.push_str("=")?;
    match word {
        "cuts" => put_cuts(alloc, kind, style_of(kind), base, out)?,
        "swaps" => put_variants(alloc, kind, base, None, out)?,
        "drops" => put_variants(alloc, kind, base, Some(0), out)?,
        "doubles" => put_variants(alloc, kind, base, Some(2), out)?,
        "endless" => tell_endless(alloc, rest, out)?,
        _ => put_text(alloc, kind, base, word, rest, out)?,
    }
    out.push_str("\n")
}

fn style_of(kind: Kind) -> Style {
    match kind {
        Kind::Document => Style::Runs,
        _ => Style::Each,
    }
}

/// Writes what is said of one text.
fn put_text(
    alloc: Global,
    kind: Kind,
    base: &str,
    word: &str,
    rest: &str,
    out: &mut String,
) -> Result<(), AllocError> {
    if word == "model" {
        let (n, text) = numbered(rest);
        let bytes = bytes_of(alloc, text)?;
        let told = told_of(alloc, Kind::Model(n), bytes.as_slice())?;
        return out.push_str(told.as_str());
    }
    let bytes = match word {
        "change" => bytes_of(alloc, changed(alloc, base, rest)?.as_str())?,
        "long" => long(alloc, rest)?,
        _ => bytes_of(alloc, rest)?,
    };
    let told = told_of(alloc, asked(kind, word), bytes.as_slice())?;
    write!(out, " {told}")
}

/// What a text is read as by a command.
fn asked<'a>(kind: Kind<'a>, word: &str) -> Kind<'a> {
    match kind {
        Kind::Answer(f) if word == "again" => Kind::Form(f.vars(), f.len()),
        Kind::Answer(_) if word == "limits" => Kind::Form(1_000_000, 4_000_000),
        _ => kind,
    }
}

/// The bytes of a text in which a word stands many times.
fn long(alloc: Global, rest: &str) -> Result<Vec<u8>, AllocError> {
    let (times, rest) = numbered(rest);
    let (word, text) = rest.split_once("|").unwrap_or((rest, ""));
    let mut words = String::new(alloc);
    for _ in 0..times {
        words.push_str(word)?;
    }
    let text = text.replace(alloc, "*", words.as_str())?;
    bytes_of(alloc, text.as_str())
}
