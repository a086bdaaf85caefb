//! The linear kernel of a formula, with stages, duals and units (Kullmann 2000).
#![tactic(auto)]

mod counted;
mod kernel;
mod run;
mod stop;
mod weighted;

pub use kernel::linear_kernel;
pub use stop::LinearStop;
