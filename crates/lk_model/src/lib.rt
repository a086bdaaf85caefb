//! The types and the definitions that the other crates share.
#![tactic(auto)]

mod answer;
mod budget;
mod class;
mod crossed;
mod decided;
mod document;
mod formula;
mod laws;
mod list;
mod lit;
mod lit_table;
mod occurrences;
mod open_clause;
mod result;
mod text_fault;
mod verdict;
mod wide;

pub use answer::Answer;
pub use budget::Budget;
pub use class::Class;
pub use crossed::{Crossed, VarSet};
pub use decided::Decided;
pub use document::{
    Body, Document, DoneDocument, Dual, MatchRow, MusAnswer, OpenDocument, Own, Pair, Round, Share,
    Stage, Step, Turn, Unit, Weight, Without,
};
pub use formula::{Formula, FormulaError, MAX_CLAUSES, MAX_LITERALS, MAX_VARS, rise_within};
pub use laws::{fault_law, gcd_law, lcm_law, reached_law, reading_law};
pub use list::{List, OutOfMemory};
pub use lit::{Lit, makes_clause};
pub use lit_table::LitTable;
pub use open_clause::OpenClause;
pub use result::{General, GeneralResult, LinearResult, MatchingResult, MusResult, PureResult};
pub use text_fault::{Fault, FaultKind};
pub use verdict::{Kind, ReadStop, Why};
pub use wide::{Op, Wide};
