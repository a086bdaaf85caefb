//! Some crossed clauses of a part under numbers of their own, and what refutes them there, restated for the part.
#![tactic(auto)]

mod copying;
mod learned;
mod telling;

pub use copying::CrossedCopy;
pub use telling::CrossedRefutation;
