//! Lines of words with one space between them, both ways.
#![tactic(auto)]

mod fields;
mod line_reader;
mod lists;
mod writing;

pub use fields::{
    behind, first_field, literal_in, number_above, number_in, one_number, two_numbers, wide_in,
};
pub use line_reader::{LineReader, read_lines};
pub use lists::{CLOSING, literals_in, numbers_in, read_clause};
pub use writing::{
    put, put_clause_line, put_closing_zero, put_entry, put_keyword, put_literal, put_literal_line,
    put_literals, put_number, put_number_line, put_signed, put_word,
};
