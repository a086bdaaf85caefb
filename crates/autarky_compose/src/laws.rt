//! What joined results show.
ghost use Rattle.autarky_compose.specs.JoinedMatching.{JoinedMatchingLaw};
ghost use Rattle.autarky_compose.specs.JoinedGeneral.{JoinedGeneralLaw};

/// What the matching reducer finds in groups that share no variable is, joined, what it finds in the
/// formula, and the parts of a formula are such groups.
#[tactic(auto, using(crate::proofs::JoinedLaws::joined_matching_law))]
pub fn joined_matching_law()
    ensures { JoinedMatchingLaw }
{}

/// What the general reducer finds in the parts of a formula can be joined, and is then what it finds in
/// the formula.
#[tactic(auto, using(crate::proofs::GeneralLaws::joined_general_law))]
pub fn joined_general_law()
    ensures { JoinedGeneralLaw }
{}
