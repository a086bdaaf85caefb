//! The law of the class linear.
ghost use Rattle.linear_laws.specs.LinearLaw.{LinearLaw};

/// Duals and units make the kept set of a linear document lean, and stages make its set line a linear
/// autarky. So a linear document that the checks accept is a reduction of the formula.
#[tactic(auto, using(crate::proofs::LinearAccepted::linear_law))]
pub fn linear_law()
    ensures { LinearLaw }
{}
