//! Laws of every class.
ghost use Rattle.kernel_laws.specs.EmptyLaw.{EmptyLaw};
ghost use Rattle.kernel_laws.specs.KernelLaw.{KernelLaw};
ghost use Rattle.kernel_laws.specs.OneKernel.{HasOneKernel};

/// A formula has one kernel of a class at most.
pub fn one_kernel()
    ensures { HasOneKernel }
{}

/// Two lean sets together are lean, so it is refuted that a formula has no kernel of a class.
#[tactic(auto, using(crate::proofs::KernelLaws::kernel_law))]
pub fn kernel_law()
    ensures { KernelLaw }
{}

/// With nothing protected the definitions are those without protected variables.
#[tactic(auto, using(crate::proofs::EmptyLaws::empty_law))]
pub fn empty_law()
    ensures { EmptyLaw }
{}
