//! Literals, clauses, formulas and assignments for tests, from numbers, from texts or drawn from a seed, and what
//! the calls ask of them, as tests that return a Boolean; and gates that hold a half of the work.
#![tactic(auto)]

mod assigned;
mod checked;
mod drawn;
mod gates;
mod given;
mod told;
mod written;

pub use assigned::assignment_of_text;
pub use checked::{has_part, positions};
pub use drawn::{Numbers, drawn_formula};
pub use gates::{FirstItem, Meeting};
pub use given::{append, push, set_of};
pub use lk_model::makes_clause;
pub use told::{put_literals, put_round, put_rounds, put_steps};
pub use written::{formula_of_text, literals_of_text, number_of, numbers_of_text, part_of_text};
