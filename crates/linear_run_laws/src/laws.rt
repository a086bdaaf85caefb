//! Laws over the definitions.
ghost use Rattle.linear_run_laws.specs.MovesLaw.{MovesLaw};
ghost use Rattle.linear_run_laws.specs.RunLaw.{LinearRunLaw, StageLaw};

/// A stage that stands has no balance below 0 on the clauses of its rows, and takes a clause out.
#[tactic(auto, using(crate::proofs::RunStages::stage_law))]
pub fn stage_law()
    ensures { StageLaw }
{}

/// A move that leads on leaves less room, so a run never runs out of moves.
#[tactic(auto, using(crate::proofs::RunRoom::moves_law))]
pub fn moves_law()
    ensures { MovesLaw }
{}

/// Where the linear run of a formula within the limits ends done, its document is accepted and reduces the formula.
#[tactic(auto, using(crate::proofs::RunAccepted::linear_run_law))]
pub fn linear_run_law()
    ensures { LinearRunLaw }
{}
