//! What an edit leaves to do.
ghost use Rattle.match_edits.specs.EditLaws.{EditLaws};

use bipartite_match::cover_law;

/// After a clause is added, one search from it makes the matching maximum again; after an unmatched one is removed it
/// is maximum without a search; after a matched one is removed, one search from the variable that it had makes it
/// maximum.
#[tactic(auto, using(crate::proofs::Edited::edited))]
pub fn edit_laws()
    ensures { EditLaws }
{
    cover_law();
}
