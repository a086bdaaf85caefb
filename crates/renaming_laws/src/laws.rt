//! Laws over the definitions.
ghost use Rattle.renaming_laws.specs.CrossedCopies.{CrossedCopyLaw};
ghost use Rattle.renaming_laws.specs.Renaming.{RenamingLaw};

/// What is found in a formula that has a part's clauses under numbers of its own is, translated to the numbers of the
/// whole formula, what is found in the part.
#[tactic(auto, using(crate::proofs::RenamingLaws::renaming_law))]
pub fn renaming_law()
    ensures { RenamingLaw }
{}

/// A refutation of crossed clauses that are copied under numbers of their own is, translated to the numbers of the
/// whole formula, one over the crossed clauses.
#[tactic(auto, using(crate::proofs::CrossedCopies::crossed_copy_law))]
pub fn crossed_copy_law()
    ensures { CrossedCopyLaw }
{}
