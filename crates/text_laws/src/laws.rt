//! Laws over the definitions.
ghost use Rattle.text_laws.specs.SpellsLaw.{FormulaLaw, PlainLaw, SpellsLaw, CoreSpellsLaw};

/// What a text spells is a formula over its variables.
pub fn formula_law()
    ensures { FormulaLaw }
{}

/// The plain text of a formula within the limits spells it, if it is not too long to be read.
#[tactic(auto, using(crate::proofs::Plain::plain_law))]
pub fn plain_law()
    ensures { PlainLaw }
{}

/// The text of a document in form spells the document's clauses, if it is not too long to be read.
#[tactic(auto, using(crate::proofs::Spelling::spells_law))]
pub fn spells_law()
    ensures { SpellsLaw }
{}

/// The text of a minimally unsatisfiable core in form spells the core's clauses, if it is not too long to be read.
#[tactic(auto, using(crate::proofs::CoreSpelling::core_spells_law))]
pub fn core_spells_law()
    ensures { CoreSpellsLaw }
{}
