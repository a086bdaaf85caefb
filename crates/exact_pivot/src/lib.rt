//! The tableau of the linear run.
#![tactic(auto)]

mod ends;
mod equation;
mod incidences;
mod laws;
mod numbers;
mod stages;
mod start;
mod stop;
mod tableau;

pub use laws::{leaving_law, reached_rows_law};
pub use lk_model::{Op, Wide};
pub use stop::{Next, PivotStop};
pub use tableau::Tableau;
