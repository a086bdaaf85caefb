//! One partial assignment over another.
ghost use Rattle.std.specs.Prelude.{◌≡◌, ◌<◌, ◌≤◌, ℕ, length, IfOk};
ghost use Rattle.lk_model.specs.Held.PartialValues.{assignment_by};
ghost use Rattle.lk_model.specs.Formulas.Assignment.{assignment_of, composed, extended, extended_literals};

use crate::assignment::Partial;
use lk_model::{List, Lit, OutOfMemory};
use std::alloc::Global;

/// The assignment that has the value of the first one where that sets a variable, else the value of the
/// second one. It takes the memory of the result alone.
pub fn compose(alloc: Global, first: &Partial, second: &Partial) -> Result<Partial, OutOfMemory>
    requires { length first.now ≡ length second.now }
    ensures vars { IfOk result (λ p. length p ≡ length first.now) }
    ensures values { IfOk result
        (λ p. assignment_by p ≡ composed (assignment_by first.now) (assignment_by second.now)) }
{
    let mut whole = Partial::new(alloc, first.vars())?;
    for v in 0..first.vars() {
        if let Some(value) = composed_value(first, second, v + 1) {
            whole.put(Lit::from_var(v + 1, value));
        }
    }
    Ok(whole)
}

/// A literal for each variable, ascending: it is true by the first assignment where that sets the
/// variable, else by the second one where that does, and else negative. Where the first is an autarky
/// that touches exactly the removed clauses of a formula, and the second satisfies the kept ones, the
/// literals satisfy the whole formula. It takes the memory of the result alone.
pub fn extend_total(alloc: Global, phi: &Partial, psi: &Partial) -> Result<List<Lit>, OutOfMemory>
    requires { length phi.now ≡ length psi.now }
    ensures literals { IfOk result
        (λ ls. ls ≡ extended_literals (assignment_by phi.now) (assignment_by psi.now) (length phi.now)) }
    ensures values { IfOk result
        (λ ls. assignment_of ls ≡ extended (assignment_by phi.now) (assignment_by psi.now) (length phi.now)) }
{
    let mut literals = Vec::with_capacity(alloc, phi.vars() as usize)?;
    for v in 0..phi.vars() {
        let value = composed_value(phi, psi, v + 1).unwrap_or(false);
        literals.push(Lit::from_var(v + 1, value))?;
    }
    Ok(List::from_vec(literals))
}

/// The value of a variable in the first assignment where that sets it, else in the second one.
fn composed_value(first: &Partial, second: &Partial, v: u32) -> Option<bool>
    requires vars { length first.now ≡ length second.now }
    requires first { 0 < v }
    requires last { v ≤ length first.now }
    ensures { result ≡ composed (assignment_by first.now) (assignment_by second.now) v }
{
    first.value(v).or(second.value(v))
}
