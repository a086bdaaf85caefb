//! Unit propagation over numbered clauses.
#![tactic(auto)]

mod clauses;
mod entry;
mod places;
mod propagator;
mod state;
mod trail;
mod watch;
mod watcher_lists;

pub use entry::Propagated;
pub use propagator::Propagator;
