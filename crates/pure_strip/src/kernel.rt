//! The kernel.
ghost use Rattle.std.specs.Prelude.{◌≡◌, IfOk, IsTrue};
ghost use Rattle.lk_model.specs.Formulas.Lean.{are_positions};
ghost use Rattle.lk_model.specs.Formulas.Assignment.{assignment_of};
ghost use Rattle.lk_model.specs.Formulas.Crossed.{no_variable};
ghost use Rattle.lk_model.specs.Formulas.PureRun.{IsPureRun, untouched, least_pairs};
ghost use Rattle.lk_model.specs.Formulas.Protected.{ReducesBy};
ghost use Rattle.lk_model.specs.declared.class.Class.TheVariants.{Pure};

use crate::pairs::{live_positions, pairs_of};
use crate::run::pure_order;
use lk_model::{Formula, OutOfMemory, PureResult};
use occurrence_lists::OccurrenceLists;
use std::alloc::Global;

/// The pure kernel of a formula, and what shows it.
///
/// - `order` has the literals of the pure run: again and again the least variable that occurs, in the
///   clauses that no literal of the order touches, in one sign only, as the literal that occurs.
/// - `kept` has the positions that no literal of the order touches, ascending and counted from 1.
/// - `pairs` has for each variable of the kept clauses, ascending, the least kept position with each
///   of its literals.
///
/// The work is meant to grow with the number of literals times the logarithm of the number of variables;
/// no clause says so.
pub fn pure_kernel(alloc: Global, f: &Formula) -> Result<PureResult, OutOfMemory>
    ensures order { IfOk result (λ r. IsPureRun f.now r.order) }
    ensures kept { IfOk result (λ r. r.kept ≡ untouched f.now r.order) }
    ensures positions { IfOk result (λ r. IsTrue (are_positions f.now r.kept)) }
    ensures pairs { IfOk result (λ r. r.pairs ≡ least_pairs f.now r.kept) }
    ensures kernel { IfOk result (λ r. ReducesBy no_variable Pure f.now r.kept (assignment_of r.order)) }
{
    let holders = OccurrenceLists::new(alloc, f)?;
    let mut live = vec![in alloc; true; f.len() as usize]?;
    let order = pure_order(alloc, f, &holders, &mut live)?;
    let kept = live_positions(alloc, live.as_slice())?;
    let pairs = pairs_of(alloc, f, &holders, live.as_slice())?;
    Ok(PureResult { kept, order, pairs })
}
