//! Laws of the class general, and of refutations and minimally unsatisfiable sets.
ghost use Rattle.general_laws.specs.CoreLaw.{CoreLaw};
ghost use Rattle.general_laws.specs.CountLaw.{CountLaw};
ghost use Rattle.general_laws.specs.ForeignLaw.{ForeignLaw};
ghost use Rattle.general_laws.specs.GeneralLaw.{GeneralLaw};
ghost use Rattle.general_laws.specs.GeneralResults.{GeneralResultLaw};
ghost use Rattle.general_laws.specs.GrowLaw.{GrowLaw};
ghost use Rattle.general_laws.specs.JoinLaw.{JoinLaw};
ghost use Rattle.general_laws.specs.MinimalLaw.{MinimalLaw, WitnessLaw};
ghost use Rattle.general_laws.specs.OpenResults.{OpenResultLaw};
ghost use Rattle.general_laws.specs.PartLaw.{PartLaw};
ghost use Rattle.general_laws.specs.RefutationLaw.{RefutationLaw};
ghost use Rattle.general_laws.specs.UsedLaw.{UsedLaw};

/// Rounds that block each variable of the kept clauses make the kept set of a general document lean.
/// So a general document that the checks accept is a reduction of the formula.
#[tactic(auto, using(crate::proofs::GeneralLaws::general_law))]
pub fn general_law()
    ensures { GeneralLaw }
{}

/// What the general reducer finds in a part of a formula is the general kernel of the part, and what
/// it finds in two parts makes, joined, what it finds in both.
#[tactic(auto, using(crate::proofs::GeneralResults::general_result_law))]
pub fn general_result_law()
    ensures { GeneralResultLaw }
{}

/// What the general reducer has in a part where it stops makes a sound document of the whole formula.
#[tactic(auto, using(crate::proofs::OpenResults::open_result_law))]
pub fn open_result_law()
    ensures { OpenResultLaw }
{}

/// A sound unfinished document with progress over n variables, n at least 1, has fewer than n * 3^n
/// learned clauses.
#[tactic(auto, using(crate::proofs::CountLaws::count_law))]
pub fn count_law()
    ensures { CountLaw }
{}

/// Where rounds state their clauses, learn, make progress and are in form, and one more round does so over
/// the variables that they block, all of them together do.
#[tactic(auto, using(crate::proofs::Growing::grow_law))]
pub fn grow_law()
    ensures { GrowLaw }
{}

/// Rounds that show two sets of positions with no common variable lean, joined, show both lean.
#[tactic(auto, using(crate::proofs::JoinLaws::join_law))]
pub fn join_law()
    ensures { JoinLaw }
{}

/// Parts of a formula share no variable.
#[tactic(auto, using(crate::proofs::PartLaws::part_law))]
pub fn part_law()
    ensures { PartLaw }
{}

/// What the rounds of a part state and learn they do over all positions, where each other clause has a variable
/// that the part does not have.
#[tactic(auto, using(crate::proofs::Foreign::foreign_law))]
pub fn foreign_law()
    ensures { ForeignLaw }
{}

/// Clauses that a round refutes have no model.
#[tactic(auto, using(crate::proofs::Refuting::refutation_law))]
pub fn refutation_law()
    ensures { RefutationLaw }
{}

/// A round that refutes some clauses of a formula refutes more of them too, and the clauses that it uses are in the
/// general kernel.
#[tactic(auto, using(crate::proofs::UsedLaws::used_law))]
pub fn used_law()
    ensures { UsedLaw }
{}

/// A set of clauses without a model, of which each can be left out for a model, is minimally unsatisfiable, and
/// so is in the general kernel.
#[tactic(auto, using(crate::proofs::MinimalLaws::minimal_law))]
pub fn minimal_law()
    ensures { MinimalLaw }
{}

/// What satisfies all clauses of a set but one shows that this one is needed, and may be turned into what
/// satisfies all but another one.
#[tactic(auto, using(crate::proofs::WitnessLaws::witness_law))]
pub fn witness_law()
    ensures { WitnessLaw }
{}

/// A core with a refutation of its clauses, and with literals for each of its positions that satisfy the others, is
/// minimally unsatisfiable, and is in the general kernel.
#[tactic(auto, using(crate::proofs::CoreLaws::core_law))]
pub fn core_law()
    ensures { CoreLaw }
{}
