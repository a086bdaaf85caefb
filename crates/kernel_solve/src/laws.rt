//! Laws over the definitions.
ghost use Rattle.kernel_solve.specs.ModelLaw.{SolveModelLaw};
ghost use Rattle.kernel_solve.specs.RefutationLaw.{SolveRefutationLaw};

/// Refuted clauses have no model, and the positions that a refutation of a formula uses are in its general
/// kernel. What is learned over a part is learned over the whole formula, if each other clause has a variable
/// that the part does not have; one round learns fewer than 3^n clauses.
#[tactic(auto, using(crate::proofs::RefutationLaws::solve_refutation_law))]
pub fn solve_refutation_law()
    ensures { SolveRefutationLaw }
{}

/// Each clause outside a part of the matching kernel has a variable that the part does not have, and models of
/// the parts, overridden by the matching autarky, are a model of the formula.
#[tactic(auto, using(crate::proofs::ModelLaws::solve_model_law))]
pub fn solve_model_law()
    ensures { SolveModelLaw }
{}
