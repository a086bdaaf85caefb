//! What a line of the script asks about, as texts, and what is returned, as words after a blank.
use std::alloc::{AllocError, Global};

/// What a call is asked about: the texts between the bars, each empty if there is none.
#[derive(Clone, Copy)]
pub(crate) struct Parts<'a> {
    pub first: &'a str,
    pub second: &'a str,
    pub third: &'a str,
    pub fourth: &'a str,
}

/// What stands before the next bar, and what stands after it.
fn cut(text: &str) -> (&str, &str) {
    text.split_once(" | ").unwrap_or((text, ""))
}

/// The pieces of a text.
pub(crate) fn parts_of(text: &str) -> Parts<'_> {
    let (first, text) = cut(text);
    let (second, text) = cut(text);
    let (third, fourth) = cut(text);
    Parts {
        first,
        second,
        third,
        fourth,
    }
}

/// The number that a piece writes.
pub(crate) fn number_of(text: &str) -> u32 {
    text.parse().unwrap_or(0)
}

/// Writes numbers, after a blank.
pub(crate) fn put_numbers(numbers: &[u32], out: &mut String) -> Result<(), AllocError> {
    write!(out, " {numbers:?}")
}

/// Writes bytes with escapes, after a blank.
pub(crate) fn put_bytes(bytes: &[u8], out: &mut String) -> Result<(), AllocError> {
    write!(out, " {}", bytes.escape_ascii())
}
