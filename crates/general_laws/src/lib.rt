//! Laws of the class general: what rounds of refutations show, over a formula and over its parts, and what makes
//! a set of clauses minimally unsatisfiable.
#![tactic(auto)]

mod laws;

pub use laws::{
    core_law, count_law, foreign_law, general_law, general_result_law, grow_law, join_law,
    minimal_law, open_result_law, part_law, refutation_law, used_law, witness_law,
};
