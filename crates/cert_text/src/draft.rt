//! What was read of a document so far.
use crate::part::Part;
use lk_model::{Formula, List, Lit};

/// Which line is due, that is, to come next.
#[derive(Clone, Copy)]
pub(crate) enum LineDue {
    Format,
    Sizes,
    Protect,
    Keep,
    Set,
    Learned,
    /// A line of the body, or the problem line after the last one.
    Body,
    Clauses,
}

/// What was read of a document, up to the line that is due. A document with a line of protected variables
/// has a list of them from its first line on.
#[derive(Drop)]
pub(crate) struct Draft {
    pub due: LineDue,
    pub vars: u32,
    pub clauses: u32,
    pub protect: Option<List<u32>>,
    pub kept: List<u32>,
    pub set: List<Lit>,
    pub learned: u64,
    pub part: Part,
    pub texts: Formula,
}
