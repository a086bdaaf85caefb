//! Edits, and what is wrong with a line that is to be one.
use lk_model::{List, Lit};

/// A change of the clauses that are live. Each clause has a number for good: those of the formula count
/// from 1, and added ones go on from there.
#[derive(Drop)]
pub enum Edit {
    /// A clause is added, with the next number. No literal stands twice in it.
    Add(List<Lit>),
    /// The clause of this number is removed.
    Remove(u32),
}

/// What is wrong with a line of a text of edits.
#[derive(Clone, Copy, PartialEq, Eq, Debug)]
pub enum EditFault {
    /// It neither adds a clause over the formula's variables nor removes one, and is not passed over.
    NotAnEdit,
    /// No clause of the number that it removes is live.
    NoSuchClause,
    /// With the clause that it adds, more than 4,000,000 clauses or 20,000,000 literals were ever held; or
    /// byte number 2^30 + 1 stands in it.
    PastLimit,
}
