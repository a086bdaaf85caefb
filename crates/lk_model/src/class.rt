//! The classes of autarkies.

/// A class of autarkies (Handbook of Satisfiability, Kleine Büning and Kullmann; Kullmann 2000 and
/// 2003).
#[derive(Clone, Copy, PartialEq, Eq, Debug)]
pub enum Class {
    Pure,
    Matching,
    Linear,
    General,
}
