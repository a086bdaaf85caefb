//! What is decided of clauses.

/// Whether clauses have a model, if it is known.
#[derive(Drop)]
pub enum Decided<M, R, S> {
    /// They have this one.
    Model(M),
    /// They have none: a refutation.
    Refuted(R),
    /// The budget is used up: what was learned until then.
    Stopped(S),
}
