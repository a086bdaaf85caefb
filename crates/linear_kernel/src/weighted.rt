//! The clauses that a stage takes out.
ghost use Rattle.std.specs.Prelude.{◌≡◌, ℕ, length, IfOk, IsTrue};
ghost use Rattle.std.specs.List.{All, list_any};
ghost use Rattle.lk_model.specs.Formulas.Literal.{is_clause, variable};
ghost use Rattle.lk_model.specs.Formulas.Lean.{are_positions};
ghost use Rattle.lk_model.specs.Linear.Phases.{unweighted};
ghost use Rattle.lk_model.specs.Held.VariableSets.{is_in};
ghost use Rattle.linear_kernel.specs.Weights.{IsWeight, has_weight, left_by};

use lk_model::{Formula, List, Lit, OutOfMemory, Stage, VarSet, Weight};
use std::alloc::Global;

/// The positions whose clauses have no variable with a weight.
pub(crate) fn unweighted(
    alloc: Global,
    f: &Formula,
    stage: &Stage,
    kept: &[u32],
) -> Result<List<u32>, OutOfMemory>
    requires kept { IsTrue (are_positions f.now kept.now) }
    requires weights { All (IsWeight f.now.vars) stage.now.weights }
    ensures { IfOk result (λ rest. rest ≡ unweighted f.now stage.now kept.now) }
{
    let weighted = weighted_variables(alloc, f.vars(), stage.weights.as_slice())?;
    left_by(alloc, f, &weighted, kept)
}

// The variables with a weight, of those up to n.
fn weighted_variables(alloc: Global, n: u32, weights: &[Weight]) -> Result<VarSet, OutOfMemory>
    requires { All (IsWeight n) weights.now }
    ensures size { IfOk result (λ set. length set ≡ n) }
    ensures value { IfOk result (λ set. (v : ℕ) → is_in set v ≡ has_weight weights.now v) }
{
    let mut set = VarSet::new(alloc, n)?;
    for w in weights {
        set.add(w.var);
    }
    Ok(set)
}

// The positions whose clauses have no variable in the set.
fn left_by(alloc: Global, f: &Formula, set: &VarSet, kept: &[u32]) -> Result<List<u32>, OutOfMemory>
    requires kept { IsTrue (are_positions f.now kept.now) }
    requires size { length set.now ≡ f.now.vars }
    ensures { IfOk result (λ rest. rest ≡ left_by f.now set.now kept.now) }
{
    let mut rest = List::new(alloc);
    for p in kept {
        if !touches(set, f.clause(*p)) {
            rest.push(*p)?;
        }
    }
    Ok(rest)
}

// Whether a variable of the clause is in the set.
fn touches(set: &VarSet, clause: &[Lit]) -> bool
    requires { IsTrue (is_clause (length set.now) clause.now) }
    ensures { result ≡ list_any (λ l. is_in set.now (variable l)) clause.now }
{
    clause.iter().any(|l| set.has(l.var()))
}
