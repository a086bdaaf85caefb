//! Laws of documents of every class, and of kernels under protected variables.
ghost use Rattle.document_laws.specs.AcceptedLaw.{AcceptedLaw};
ghost use Rattle.document_laws.specs.CarryLaw.{AutarkyLaw, RunLaw};
ghost use Rattle.document_laws.specs.ExistenceLaw.{ExistenceLaw};
ghost use Rattle.document_laws.specs.ExtensionLaw.{ExtensionLaw};
ghost use Rattle.document_laws.specs.FoundLaw.{FoundLaw};
ghost use Rattle.document_laws.specs.OneKernelUnder.{HasOneKernelUnder};
ghost use Rattle.document_laws.specs.ProtectedCheckLaw.{ProtectedCheckLaw};
ghost use Rattle.document_laws.specs.SameKept.{SameKeptLaw};

/// A document that the checks accept is a reduction of the formula, of each class and with any
/// protected variables.
#[tactic(auto, using(crate::proofs::AcceptedLaws::accepted_law))]
pub fn accepted_law()
    ensures { AcceptedLaw }
{}

/// A formula has one kernel of a class at most under protected variables.
pub fn one_kernel_under()
    ensures { HasOneKernelUnder }
{}

/// Whatever made them, two documents of one class that reduce a formula under the same protected variables keep
/// the same clauses.
#[tactic(auto, using(crate::proofs::SameKept::same_kept_law))]
pub fn same_kept()
    ensures { SameKeptLaw }
{}

/// A formula has a pure, a matching and a general kernel.
#[tactic(auto, using(crate::proofs::Existence::ExistenceLaws::existence_law))]
pub fn existence_law()
    ensures { ExistenceLaw }
{}

/// Under protected variables an autarky is one that sets none of them and is one on the formula without
/// their literals; lean sets and kernels are those of that formula.
#[tactic(auto, using(crate::proofs::Autarkies::autarky_law))]
pub fn autarky_law()
    ensures { AutarkyLaw }
{}

/// Under protected variables the pure run, its pairs and the parts are those of the formula without their
/// literals.
#[tactic(auto, using(crate::proofs::Parts::run_law))]
pub fn run_law()
    ensures { RunLaw }
{}

/// Under protected variables the first failing check is that of the document on the formula without their
/// literals, once the numbers, the clause lines and the set line pass.
#[tactic(auto, using(crate::proofs::ProtectedCheckLaws::protected_check_law))]
pub fn protected_check_law()
    ensures { ProtectedCheckLaw }
{}

/// What a reducer finds on the formula without the protected variables reduces the formula, written
/// with its clauses and the protect line.
#[tactic(auto, using(crate::proofs::FoundLaws::found_law))]
pub fn found_law()
    ensures { FoundLaw }
{}

/// Models of the kept clauses extend, and leave the protected variables their values.
#[tactic(auto, using(crate::proofs::ExtensionLaws::extension_law))]
pub fn extension_law()
    ensures { ExtensionLaw }
{}
