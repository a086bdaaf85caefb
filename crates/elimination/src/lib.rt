//! Elimination of variables before a search.
//!
//! A variable goes where the clauses with it are replaced by their resolvents on it (Davis and Putnam, "A Computing
//! Procedure for Quantification Theory", 1960), if these are no more (Eén and Biere, "Effective Preprocessing in SAT
//! through Variable and Clause Elimination", 2005). Formulas that tools write of circuits lose nine tenths of their
//! variables so.
//!
//! Nothing that is found here is promised: whoever reports a refutation or a model of the formula tests it. Each
//! clause that is added has a chain of resolutions, so that a refutation of what is left becomes one of the formula;
//! the clauses that a variable goes with are kept, so that a model of what is left can be extended.
#![tactic(auto)]

mod allowance;
mod chains;
mod eliminated;
mod eliminating;
mod eliminator;
mod extending;
mod literals;
mod marks;
mod needed;
mod propagating;
mod table;
mod units;

pub use eliminated::Eliminated;
pub use literals::literals_in;
