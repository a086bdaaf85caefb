//! Laws over the definitions.
ghost use Rattle.part_kernels.specs.ByParts.{MadeLaw};

/// What is made of the answers on parts is a function of these.
#[tactic(auto, using(crate::proofs::Made::made_law))]
pub fn made_law()
    ensures { MadeLaw }
{}
