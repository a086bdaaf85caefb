//! A core, stated in the numbers of the formula.
ghost use Rattle.std.specs.Prelude.{◌≡◌, ℕ, None, find, not, is_some, length, IfOk, IfSome, IsTrue};
ghost use Rattle.lk_model.specs.Formulas.Formula.{variable_occurs};
ghost use Rattle.lk_model.specs.Formulas.Lean.{are_positions};
ghost use Rattle.lk_model.specs.Held.VariableSets.{is_in};
ghost use Rattle.mus_core.specs.Found.{IsCoreWithin};
ghost use Rattle.mus_core.specs.Shrinking.{IsShrunk};
ghost use Rattle.mus_core.specs.WitnessValues.{witness_at, AreLines, IsLine};

use crate::witnesses::Witnesses;
use lk_model::{List, MusResult, OutOfMemory, VarSet, Without};
use part_copy::PartCopy;
use part_formula::Refuted;
use std::alloc::Global;

/// The core at the places of a refutation, each of which has a witness.
pub(crate) fn told_core(
    alloc: Global,
    core: &PartCopy,
    refutation: Refuted,
    witnesses: &Witnesses,
) -> Result<MusResult, OutOfMemory>
    requires places { IsTrue (are_positions core.now.clauses refutation.used) }
    requires vars { (q : ℕ) →
        IfSome (witness_at witnesses.now q) (λ values. length values ≡ core.now.clauses.vars) }
    requires each { find (λ p. not (is_some (witness_at witnesses.now p))) refutation.used ≡ None }
    ensures { (conflicts : ℕ) → IsShrunk core.now conflicts refutation witnesses.now
        → IfOk result (IsCoreWithin core.now.formula conflicts) }
{
    let without = lines(alloc, core, refutation.used.as_slice(), witnesses)?;
    Ok(MusResult {
        core: core.positions(refutation.used),
        round: refutation.round,
        without,
    })
}

// The line for each place.
fn lines(
    alloc: Global,
    core: &PartCopy,
    places: &[u32],
    witnesses: &Witnesses,
) -> Result<List<Without>, OutOfMemory>
    requires places { IsTrue (are_positions core.now.clauses places.now) }
    requires vars { (q : ℕ) →
        IfSome (witness_at witnesses.now q) (λ values. length values ≡ core.now.clauses.vars) }
    ensures { IfOk result
        (AreLines core.now (variable_occurs core.now.clauses places.now) witnesses.now places.now) }
{
    let mut vars = VarSet::new(alloc, core.clauses().vars())?;
    vars.add_clauses(core.clauses(), places);
    let mut lines = List::new(alloc);
    for p in places {
        lines.push(line(alloc, core, &vars, witnesses, *p)?)?;
    }
    Ok(lines)
}

// That for one place: literals of its witness on the variables of a set.
fn line(
    alloc: Global,
    core: &PartCopy,
    vars: &VarSet,
    witnesses: &Witnesses,
    p: u32,
) -> Result<Without, OutOfMemory>
    requires size { length vars.now ≡ core.now.clauses.vars }
    requires vars { (q : ℕ) →
        IfSome (witness_at witnesses.now q) (λ values. length values ≡ core.now.clauses.vars) }
    ensures { IfOk result (IsLine core.now (is_in vars.now) witnesses.now p) }
{
    let literals = witnesses.literals(alloc, vars, p)?;
    let lits = core.literals(literals);
    let pos = core.position(p);
    Ok(Without { pos, lits })
}
