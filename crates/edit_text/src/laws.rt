//! Laws over the definitions.
ghost use Rattle.edit_text.specs.EditsLaw.{EditsLaw};

/// Each text is one of edits, which are these alone and can be made one after the other, or it has a first
/// fault, and never both.
#[tactic(auto, using(crate::proofs::EditTexts::law))]
pub fn edits_law()
    ensures { EditsLaw }
{}
