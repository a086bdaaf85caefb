//! Clauses that come and go, with a maximum matching that follows them and their matching kernel (Kullmann 2003).
#![tactic(auto)]

mod laws;
mod live;
mod parts;
mod stop;

pub use laws::edit_laws;
pub use live::Live;
pub use stop::EditStop;
