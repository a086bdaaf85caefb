//! Laws of the class pure.
ghost use Rattle.pure_laws.specs.PureLaw.{PureLaw};
ghost use Rattle.pure_laws.specs.PureResults.{PureResultLaw};

/// A pure run leaves the kernel of the formula. Pairs make the kept set of a pure document lean, and
/// an order makes its set line a pure autarky. So a pure document that the checks accept is a
/// reduction of the formula.
#[tactic(auto, using(crate::proofs::PureLaws::pure_law))]
pub fn pure_law()
    ensures { PureLaw }
{}

/// What the pure reducer finds is the pure kernel, and the document that states it reduces the formula.
#[tactic(auto, using(crate::proofs::PureResults::pure_result_law))]
pub fn pure_result_law()
    ensures { PureResultLaw }
{}
