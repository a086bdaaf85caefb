//! Numbers and their words, and lines and words of a text.
ghost use Rattle.std.specs.Prelude.{IsTrue};
ghost use Rattle.lk_text.specs.Cutting.{is_one_line};

use crate::parts::{Parts, number_of, put_bytes};
use lk_text::{Cut, classify, next_line, next_word, put_i128, read_natural, read_plain};
use std::alloc::{AllocError, Global};
use std::test::Fail;

/// `number WORD`: what number the word is, what digits it has, and what number it spells shortest.
pub(crate) fn put_number(parts: Parts, out: &mut String) -> Result<(), AllocError> {
    let word = parts.first.as_bytes();
    let kind = classify(word);
    let natural = read_natural(word);
    let plain = read_plain(word);
    write!(out, " {kind:?} {natural:?} {plain:?}")
}

/// `spell NUMBER`: its spelling.
pub(crate) fn put_spelling(alloc: Global, parts: Parts, out: &mut String) -> Result<(), Fail> {
    let mut text = Vec::new(alloc);
    put_i128(&mut text, parts.first.parse().unwrap_or(0))?;
    put_bytes(text.as_slice(), out)?;
    Ok(())
}

/// `line FROM | TEXT` and `word FROM | LINE`: where the next line or word lies. In the text `\n`, `\r` and `\t`
/// stand for the bytes 10, 13 and 9.
pub(crate) fn put_cut(
    alloc: Global,
    word: &str,
    parts: Parts,
    out: &mut String,
) -> Result<(), AllocError> {
    let ends = parts.second.replace(alloc, "\\n", "\n")?;
    let returns = ends.as_str().replace(alloc, "\\r", "\r")?;
    let text = returns.as_str().replace(alloc, "\\t", "\t")?;
    put_next(word, text.as_bytes(), number_of(parts.first) as usize, out)
}

fn put_next(word: &str, text: &[u8], from: usize, out: &mut String) -> Result<(), AllocError> {
    if from > text.len() {
        return Ok(());
    }
    if word == "line" {
        return put_place(next_line(text, from), out);
    }
    if is_line(text) {
        return put_place(next_word(text, from), out);
    }
    Ok(())
}

fn put_place(cut: Option<Cut>, out: &mut String) -> Result<(), AllocError> {
    write!(out, " {cut:?}")
}

/// Whether no line ends in these bytes.
fn is_line(bytes: &[u8]) -> bool
    ensures { IsTrue result → IsTrue (is_one_line bytes.now) }
{
    match bytes.split_first() {
        Some((b, others)) => *b != b'\n' && is_line(others),
        None => true,
    }
}
