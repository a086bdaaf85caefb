//! What a propagator holds.
use lk_model::{List, Lit};

/// A literal of the trail, the level at which it came, and the number of the clause that forced it; none where
/// it was assigned.
#[derive(Clone, Copy)]
pub struct Entry {
    pub lit: Lit,
    pub level: u32,
    pub reason: Option<u64>,
}

/// A clause with its number.
#[derive(Drop)]
pub struct NumberedClause {
    pub number: u64,
    pub lits: List<Lit>,
}

/// How a propagation ends: nothing more is forced, or the clause of this number is false.
#[derive(Clone, Copy)]
pub enum Propagated {
    Quiet,
    Conflict(u64),
}
