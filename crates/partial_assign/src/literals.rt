//! The assignment that a list of literals gives.
ghost use Rattle.std.specs.Prelude.{◌≡◌, ◌≤◌, length, map, IfOk, IsTrue};
ghost use Rattle.lk_model.specs.Lists.{rises_within};
ghost use Rattle.lk_model.specs.Formulas.Literal.{variable};
ghost use Rattle.lk_model.specs.Held.PartialValues.{assignment_by};
ghost use Rattle.lk_model.specs.Formulas.Assignment.{assignment_of};

use crate::assignment::Partial;
use lk_model::{Lit, OutOfMemory};
use std::alloc::Global;

/// The assignment of the variables from 1 to n, of which there are 1,000,000 at most, that makes these
/// literals true and sets no other variable. Their variables rise, as those of a set line do. It takes the
/// memory of the result alone, and fails only if memory runs out.
pub fn assignment_of(alloc: Global, n: u32, literals: &[Lit]) -> Result<Partial, OutOfMemory>
    requires few { n ≤ 1000000 }
    requires rising { IsTrue (rises_within 0 n (map variable literals.now)) }
    ensures vars { IfOk result (λ values. length values ≡ n) }
    ensures values { IfOk result (λ values. assignment_by values ≡ assignment_of literals.now) }
{
    let mut values = Partial::new(alloc, n)?;
    for l in literals {
        values.put(*l);
    }
    Ok(values)
}
