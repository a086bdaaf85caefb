//! Laws of the class matching.
ghost use Rattle.matching_laws.specs.MatchingLaw.{MatchingLaw};
ghost use Rattle.matching_laws.specs.MatchingResults.{MatchingResultLaw};

/// Rows make the kept set of a matching document lean, and own lines make its set line a matching
/// autarky (Kullmann 2003). So a matching document that the checks accept is a reduction of the
/// formula.
#[tactic(auto, using(crate::proofs::MatchingLaws::matching_law))]
pub fn matching_law()
    ensures { MatchingLaw }
{}

/// What the matching reducer finds in a part is the matching kernel of the part, and the document that
/// states it is in form and passes the checks there.
#[tactic(auto, using(crate::proofs::MatchingReductions::matching_result_law))]
pub fn matching_result_law()
    ensures { MatchingResultLaw }
{}
