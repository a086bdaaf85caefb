//! Laws of the texts that spell formulas, and of those that leank writes: they are DIMACS.
#![tactic(auto)]

mod laws;

pub use laws::{core_spells_law, formula_law, plain_law, spells_law};
