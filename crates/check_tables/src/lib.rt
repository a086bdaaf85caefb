//! What the checks of documents share: searches for a first place on threads, sets of literals, and tables of positions
//! and of variables.
#![tactic(auto)]

mod literal_set;
mod places;
mod tables;

pub use literal_set::LiteralSet;
pub use places::{Span, Workers};
pub use tables::{kept_flags, occurring_at};
