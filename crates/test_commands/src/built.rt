//! `@ verdicts`: documents that are built from their parts, as texts. The expected verdicts were worked out by hand from the
//! definitions of the checks.
//!
//! `matching N; CLAUSES; KEPT; SET; OWN; ROWS` has the number of variables, the clauses with commas between
//! them, the kept positions, the literals of the set line, and the lines `own` and `row`, each as its numbers,
//! with commas between them. The clause lines are those of the formula.
//!
//! `extend CLASS N M; PROTECT; KEPT; SET; LINES; N; CLAUSES; MODEL` has a document without lines of its class:
//! the numbers that it states, its protected variables or `none`, the kept positions, the set line and the
//! clause lines; then the formula, and the literals of a model that is to be extended.
use crate::documents::tell_text;
use crate::extending::tell_extension;
use lk_samples::{formula_of_text, number_of, numbers_of_text};
use std::alloc::{AllocError, Global};
use std::test::Fail;
use std::thread::Threads;

/// The front of a text, up to a semicolon, and the rest of it.
pub(crate) fn split(text: &str) -> (&str, &str) {
    text.split_once(";").unwrap_or((text, ""))
}

/// The first word of a text, and the rest of it.
fn split_word(text: &str) -> (&str, &str) {
    text.split_once(" ").unwrap_or((text, ""))
}

/// Writes a line for each text between commas that is not blank: a head, the words, and an end, but not after the word
/// 0.
fn put_lines(head: &str, lines: &str, end: &str, out: &mut String) -> Result<(), AllocError> {
    for words in lines.split(",") {
        let words = words.trim();
        let end = if words == "0" { "" } else { end };
        if !words.is_empty() {
            writeln!(out, "{head}{words}{end}")?;
        }
    }
    Ok(())
}

/// Writes a line that the word 0 closes.
fn put_list(head: &str, words: &str, out: &mut String) -> Result<(), AllocError> {
    let words = if words.trim().is_empty() { "0" } else { words };
    put_lines(head, words, " 0", out)
}

/// Writes the clauses of a text that stand at these positions.
fn put_kept(clauses: &str, positions: &[u32], out: &mut String) -> Result<(), AllocError> {
    let mut p = 0u32;
    for clause in clauses.split(",") {
        p = p.wrapping_add(1);
        if positions.contains(&p) {
            put_lines("", clause, " 0", out)?;
        }
    }
    Ok(())
}

/// Writes the document over a formula of m clauses that a line `matching` has.
fn put_matching(alloc: Global, m: u32, text: &str, out: &mut String) -> Result<(), AllocError> {
    let (vars, text) = split(text);
    let (clauses, text) = split(text);
    let (kept, text) = split(text);
    let (set, text) = split(text);
    let (own, rows) = split(text);
    writeln!(out, "c leank 1 matching\nc formula {vars} {m}")?;
    put_list("c keep ", kept, out)?;
    put_list("c set ", set, out)?;
    put_lines("c own ", own, "", out)?;
    put_lines("c row ", rows, "", out)?;
    writeln!(out, "p cnf {vars} {}", kept.split_whitespace().count())?;
    put_kept(clauses, numbers_of_text(alloc, kept)?.as_slice(), out)
}

/// Writes the lines that begin a document of a class: its version, and the numbers that it states.
fn put_head(version: u32, class: &str, sizes: &str, out: &mut String) -> Result<(), AllocError> {
    writeln!(out, "c leank {version} {class}\nc formula {sizes}")
}

/// Writes the document that a line `extend` has, and returns what stands after it.
fn put_extended<'a>(text: &'a str, out: &mut String) -> Result<&'a str, AllocError> {
    let (sizes, text) = split(text);
    let (protect, text) = split(text);
    let (kept, text) = split(text);
    let (set, text) = split(text);
    let (lines, text) = split(text);
    let (class, sizes) = split_word(sizes);
    let (vars, _) = split_word(sizes);
    let protected = protect.trim() != "none";
    let version = u32::from(protected).wrapping_add(1);
    put_head(version, class, sizes, out)?;
    if protected {
        put_list("c protect ", protect, out)?;
    }
    put_list("c keep ", kept, out)?;
    put_list("c set ", set, out)?;
    if class == "pure" {
        out.push_str("c order 0\n")?;
    }
    writeln!(out, "p cnf {vars} {}", kept.split_whitespace().count())?;
    put_lines("", lines, " 0", out)?;
    Ok(text)
}

/// Reports the verdict on the document of a line `matching`.
fn tell_matching<R: Threads + Sync>(
    rt: &R,
    alloc: Global,
    parts: &str,
    out: &mut String,
) -> Result<(), Fail> {
    let (vars, rest) = split(parts);
    let f = formula_of_text(alloc, number_of(vars), split(rest).0)?;
    let mut text = String::new(alloc);
    put_matching(alloc, f.len(), parts, &mut text)?;
    tell_text(rt, alloc, false, &f, text.as_str(), out)
}

/// Reports the verdict on the document of a line, or of the model that it is to extend.
pub(crate) fn tell<R: Threads + Sync>(
    rt: &R,
    alloc: Global,
    line: &str,
    out: &mut String,
) -> Result<(), Fail> {
    match line.split_once(" ") {
        Some(("matching", parts)) => tell_matching(rt, alloc, parts, out),
        Some(("extend", parts)) => {
            let mut text = String::new(alloc);
            let behind = put_extended(parts, &mut text)?;
            tell_extension(alloc, text.as_str(), behind, out)
        }
        _ => Ok(()),
    }
}
