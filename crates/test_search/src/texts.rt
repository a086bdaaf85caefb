//! Pieces of lines.

/// What stands before the next bar, and what stands after it.
pub(crate) fn part_of(text: &str) -> (&str, &str) {
    text.split_once("|").unwrap_or((text, ""))
}

/// The number that a text has.
pub(crate) fn number_of(text: &str) -> u32 {
    text.trim().parse().unwrap_or(0)
}
