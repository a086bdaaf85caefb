//! The statuses, the lines that are said with them, and what an ending is.
#![tactic(auto)]

mod ending;
mod linear;
mod lines;
mod status;
mod verdict;

pub use ending::{Ending, ending_of};
pub use linear::ending_of_linear_stop;
pub use lines::conflicts_line;
pub use status::{Status, code_of_failure};
pub use verdict::ending_of_verdict;
