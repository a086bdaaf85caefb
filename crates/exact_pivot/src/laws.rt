//! Laws over the definitions.
ghost use Rattle.exact_pivot.specs.Reached.{LeavingLaw, ReachedRowsLaw};

/// What holds of all rows that the run reaches: their shape, their basic columns, what they are of the
/// starting rows, and that they have the same solutions.
#[tactic(auto, using(crate::proofs::ReachedRows::reached_rows))]
pub fn reached_rows_law()
    ensures { ReachedRowsLaw }
{}

/// In the first phase some row leaves for the column that enters.
#[tactic(auto, using(crate::proofs::ReachedRows::leaving_rows))]
pub fn leaving_law()
    ensures { LeavingLaw }
{}
