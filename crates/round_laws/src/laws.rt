//! Laws over the definitions.
ghost use Rattle.round_laws.specs.RoundLaw.{RoundLaw};

/// Rounds that are found part by part need each of their steps, also joined, and learn in each part no more clauses
/// than were allowed there. The same is true under protected variables, also of where a search stops.
#[tactic(auto, using(crate::proofs::RoundLaws::round_law))]
pub fn round_law()
    ensures { RoundLaw }
{}
