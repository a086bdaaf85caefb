//! Faults of the texts of formulas.

/// What is wrong with a text that spells no formula (DIMACS CNF 1993, with leank's rules and limits).
#[derive(Clone, Copy, PartialEq, Eq, Debug)]
pub enum FaultKind {
    /// The first line that is neither blank nor a comment does not begin with `p`, or there is none.
    NoHeader,
    /// The first line that begins with `p` is not `p cnf V C`.
    BadHeader,
    /// A further line begins with `p`.
    SecondHeader,
    /// A word after the problem line is no number.
    BadToken,
    /// The variable of a literal is past V.
    BeyondStated,
    /// A number occurs when C clauses are closed.
    TooManyClauses,
    /// There are fewer than C clauses at the end.
    TooFewClauses,
    /// V or C, or the number of literals as written, is past its limit.
    Limit,
    /// There are more than 2^30 bytes.
    TooLong,
}

/// A fault of a text.
#[derive(Clone, Copy, PartialEq, Eq, Debug)]
pub struct Fault {
    pub kind: FaultKind,
    /// The number of the byte at which the fault shows, counted from 1; the end of the text counts as
    /// the byte after the last one.
    pub place: usize,
}
