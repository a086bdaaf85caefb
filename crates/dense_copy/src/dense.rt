//! A part of a formula as a formula by itself, whose variables are numbered from 1 without a gap.
ghost use Rattle.std.specs.Prelude.{◌≡◌, ◌<◌, ◌≤◌, [], length, map, IfOk, OnOk, IsTrue};
ghost use Rattle.std.specs.List.{list_all};
ghost use Rattle.lk_model.specs.Lists.{among, rises_within};
ghost use Rattle.lk_model.specs.Limits.{max_vars};
ghost use Rattle.lk_model.specs.Formulas.Literal.{is_literal};
ghost use Rattle.lk_model.specs.Formulas.Formula.{is_formula, IsWithinLimits};
ghost use Rattle.lk_model.specs.Formulas.Lean.{are_positions};
ghost use Rattle.general_laws.specs.Found.{has_only};
ghost use Rattle.renaming_laws.specs.Renaming.{IsDense, named, nth};
ghost use Rattle.dense_copy.specs.Names.{AreNames};

use lk_model::{Formula, Lit, OutOfMemory};
use std::alloc::Global;

/// The clauses at the positions, in their order, over as many variables as there are names. A variable
/// has the place of its name for its number.
pub fn dense_formula(
    alloc: Global,
    f: &Formula,
    part: &[u32],
    names: &[u32],
) -> Result<Formula, OutOfMemory>
    requires formula { IsTrue (is_formula f.now) }
    requires limits { IsWithinLimits f.now }
    requires part { IsTrue (are_positions f.now part.now) }
    requires names { AreNames f.now part.now names.now }
    ensures { IfOk result (IsDense f.now part.now names.now) }
{
    let mut dense = over_variables(alloc, names.len() as u32)?;
    let mut clause = Vec::new(alloc);
    for position in part {
        clause.clear();
        push_dense(&mut clause, f.clause(*position), names)?;
        dense.push_within(&clause)?;
    }
    Ok(dense)
}

// The formula of n variables without a clause.
fn over_variables(alloc: Global, n: u32) -> Result<Formula, OutOfMemory>
    requires { n ≤ max_vars }
    ensures vars { IfOk result (λ f. f.vars ≡ n) }
    ensures clauses { IfOk result (λ f. f.clauses ≡ []) }
{
    Formula::new(alloc, n).map_err(|_| OutOfMemory)
}

// Fills a clause with the literals of another one, each on the place of its variable's name.
fn push_dense(dense: &mut Vec<Lit>, clause: &[Lit], names: &[u32]) -> Result<(), OutOfMemory>
    requires empty { dense.old.items ≡ [] }
    requires ascend { IsTrue (rises_within 0 max_vars names.now) }
    requires names { IsTrue (has_only (among names.now) clause.now) }
    ensures literals { OnOk result (IsTrue (list_all (is_literal (length names.now)) dense.new.items)) }
    ensures clause { OnOk result (map (named names.now) dense.new.items ≡ clause.now) }
{
    for l in clause {
        dense.push(Lit::from_var(place_of(names, l.var()), l.positive()))?;
    }
    Ok(())
}

// The place of a name, from 1 on.
fn place_of(names: &[u32], name: u32) -> u32
    requires ascend { IsTrue (rises_within 0 max_vars names.now) }
    requires there { IsTrue (among names.now name) }
    ensures first { 0 < result }
    ensures last { result ≤ length names.now }
    ensures few { result ≤ max_vars }
    ensures name { nth names.now result ≡ name }
{
    match names.binary_search(&name) {
        Ok(place) => place as u32 + 1,
        Err(place) => place as u32 + 1,
    }
}
