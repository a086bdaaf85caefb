//! Laws over the definitions.
ghost use Rattle.refutation_log.specs.Derivation.{PushedLaw};
ghost use Rattle.refutation_log.specs.InForm.{FormLaw};
ghost use Rattle.refutation_log.specs.OtherPremises.{OtherPremisesLaw};
ghost use Rattle.refutation_log.specs.Trimmed.{TrimmedLaw};

/// Steps that are pushed one after another onto an empty log, over the same clauses, state the clauses
/// of their chains.
pub fn pushed_law()
    ensures { PushedLaw }
{}

/// A trimmed refutation is one too, numbered from `next`, by chains over the same clauses, and uses the
/// same positions. This is said of a log's steps that are chains and refute, where `next` is above the
/// number of the formula's clauses and at most the first step's number.
pub fn trimmed_law()
    ensures { TrimmedLaw }
{}

/// A log's steps that are chains over a formula have the form of a document's steps, if they are numbered
/// above the formula's clauses and below 2^64.
pub fn form_law()
    ensures { FormLaw }
{}

/// What a chain states depends on the clauses that it names alone: chains over some positions are chains
/// over others that have the named ones, where the same variables of their clauses are blocked.
#[tactic(auto, using(crate::proofs::OtherPremisesLaws::other_premises_law))]
pub fn other_premises_law()
    ensures { OtherPremisesLaw }
{}
