//! A search by clause learning that forgets clauses.
//!
//! Variables are decided by their activity, runs begin anew, learned clauses become shorter by the reasons of their
//! literals, and most of them are forgotten again (Eén and Sörensson, "An Extensible SAT-solver", 2003; Audemard and
//! Simon, "Predicting Learnt Clauses Quality in Modern SAT Solvers", 2009). What forgets nothing spends more and more
//! time on clauses that force nothing.
//!
//! Nothing that is found here is promised: whoever reports a model or a refutation tests it. A clause that is learned
//! may contain one that was forgotten, so these refutations are no rounds of a document.
#![tactic(auto)]

mod analyzing;
mod chains;
mod clauses;
mod learning;
mod luby;
mod marks;
mod order;
mod propagating;
mod reducing;
mod refuting;
mod search;
mod trail;

pub use search::decide;
