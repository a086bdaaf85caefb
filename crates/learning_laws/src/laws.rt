//! Laws over the definitions.
ghost use Rattle.learning_laws.specs.ChainLaw.{ChainLaw};
ghost use Rattle.learning_laws.specs.ModelLaw.{ModelLaw};
ghost use Rattle.learning_laws.specs.PlaceLaw.{PlaceLaw};
ghost use Rattle.learning_laws.specs.QuietLaw.{QuietLaw};
ghost use Rattle.learning_laws.specs.SolveLaw.{SolveLaw};
ghost use Rattle.learning_laws.specs.TrailLaw.{TrailLaw};
ghost use Rattle.learning_laws.specs.WalkLaw.{WalkLaw};

/// A clause that is learned from a false one is new to the round, and keeps what a solver knows below
/// the present level.
#[tactic(auto, using(crate::proofs::QuietLaws::quiet_law))]
pub fn quiet_law()
    ensures { QuietLaw }
{}

/// The turns of a chain, back along the trail from a clause that is false, and when its clause is learned.
#[tactic(auto, using(crate::proofs::Backwards::chain_law))]
pub fn chain_law()
    ensures { ChainLaw }
{}

/// The levels, literals and reasons of a trail.
#[tactic(auto, using(crate::proofs::TrailLaws::trail_law))]
pub fn trail_law()
    ensures { TrailLaw }
{}

/// Where all is quiet and all variables are set, the crossed clauses are satisfied, and no blocked
/// variable is set.
#[tactic(auto, using(crate::proofs::Models::model_law))]
pub fn model_law()
    ensures { ModelLaw }
{}

/// What a solver that learns holds at each step, which each step keeps.
#[tactic(auto, using(crate::proofs::Solving::solve_law))]
pub fn solve_law()
    ensures { SolveLaw }
{}

/// A trail place by place, and how a walk back along it counts the literals of the present level.
#[tactic(auto, using(crate::proofs::Counts::place_law))]
pub fn place_law()
    ensures { PlaceLaw }
{}

/// The walk back along the trail from a false clause, place by place, and how it ends.
#[tactic(auto, using(crate::proofs::Walking::walk_law))]
pub fn walk_law()
    ensures { WalkLaw }
{}
