//! The literals that an order or the stages of a linear run make true, ascending by variable.
ghost use Rattle.std.specs.Prelude.{◌≡◌, ◌≤◌, length, map, IfOk, IsTrue};
ghost use Rattle.std.specs.List.{filter_map, list_all};
ghost use Rattle.lk_model.specs.Limits.{max_vars};
ghost use Rattle.lk_model.specs.Documents.Form.{is_stage, is_weight};
ghost use Rattle.lk_model.specs.Formulas.Formula.{variables_to};
ghost use Rattle.lk_model.specs.Lists.{rises_within};
ghost use Rattle.lk_model.specs.declared.document.Weight.{Weight as AWeight};
ghost use Rattle.pure_laws.specs.PureResults.{IsSetLine};
ghost use Rattle.linear_run_laws.specs.RunLaw.{sign_literal};
ghost use Rattle.reductions.specs.SignTables.{AreSigns, NotesSigns};

use lk_model::{List, Lit, OutOfMemory, Stage, Weight};
use std::alloc::Global;

/// The literals of an order.
pub(crate) fn set_of_order(alloc: Global, order: &[Lit]) -> Result<List<Lit>, OutOfMemory>
    ensures { IfOk result (IsSetLine order.now) }
{
    let mut set = Vec::from_slice(alloc, order)?;
    set.sort_by_key(|l| l.var())?;
    Ok(List::from_vec(set))
}

/// For each variable up to n with a weight in the stages, the literal with the sign of the first.
pub(crate) fn set_of_stages(
    alloc: Global,
    n: u32,
    stages: &[Stage],
) -> Result<List<Lit>, OutOfMemory>
    requires limit { n ≤ max_vars }
    requires stages { IsTrue (list_all (is_stage n) stages.now) }
    ensures { IfOk result (λ set. set ≡ filter_map (sign_literal stages.now) (variables_to n)) }
{
    let table = stage_literals(alloc, n, stages)?;
    Ok(List::from_vec(table.iter().filter_map(|entry| *entry).collect(alloc)?))
}

/// The literals with the signs of the weights, each at the place of its variable. The stages are taken from the last
/// one on, so that of two weights of one variable the first stays.
fn stage_literals(alloc: Global, n: u32, stages: &[Stage]) -> Result<Vec<Option<Lit>>, OutOfMemory>
    requires limit { n ≤ max_vars }
    requires stages { IsTrue (list_all (is_stage n) stages.now) }
    ensures { IfOk result (λ table. AreSigns n stages.now table.items) }
{
    let mut table = vec![in alloc; None; n as usize]?;
    for k in (0..stages.len()).rev() {
        note_weights(&mut table, n, stages[k].weights.as_slice());
    }
    Ok(table)
}

/// Puts the literals of the weights of a stage before those of the later ones.
fn note_weights(table: &mut [Option<Lit>], n: u32, weights: &[Weight])
    requires size { length table.old ≡ n }
    requires limit { n ≤ max_vars }
    requires rising { IsTrue (rises_within 0 n (map (λ (w : AWeight). w.var) weights.now)) }
    requires nonzero { IsTrue (list_all (λ (w : AWeight). is_weight w.x) weights.now) }
    ensures { NotesSigns n weights.now table.old table.new }
{
    for i in (0..weights.len()).rev() {
        let weight = weights[i];
        table[weight.var as usize - 1] = Some(Lit::from_var(weight.var, weight.x > 0));
    }
}
