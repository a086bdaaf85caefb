//! What checks ask of one place, by tables and flags, and which of the answers of several workers is the first.
#![tactic(auto)]

mod answers;
mod common;
mod flags;
mod linear;
mod matching;
mod rounds;
mod tables;

pub use answers::first_answer;
pub use common::{first_set, is_misplaced};
pub use flags::has_any;
pub use linear::{is_amiss, is_bad_dual, is_positive};
pub use matching::{Owners, is_bad_owner, is_misranked};
pub use rounds::is_reached;
pub use tables::number_at;
