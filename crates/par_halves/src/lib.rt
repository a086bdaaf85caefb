//! Work on the items of a list, in halves on threads.
#![tactic(auto)]

mod gathering;
mod halves;

pub use gathering::all_ok;
pub use halves::map_halves;
pub use lk_outside::Gate;
