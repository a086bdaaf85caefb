//! Resolution chains, logs of their clauses, and what a refutation uses of them.
#![tactic(auto)]

mod axioms;
mod chain;
mod chain_clause;
mod laws;
mod log;
mod logged_step;
mod numbers;
mod reach;
mod replaying;
mod turns;
mod work;

pub use axioms::axioms_of;
pub use chain::Chain;
pub use laws::{form_law, other_premises_law, pushed_law, trimmed_law};
pub use log::{Log, Trimmed};
pub use replaying::replay;
pub use work::{Work, resolve_into};
