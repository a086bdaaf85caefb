//! The check of the literals for each position of a core.
ghost use Rattle.std.specs.Prelude.{◌≡◌, ◌≤◌, ◌<◌, ◌+◌, ◌*◌, ◌||◌, ◌==◌, [], length, IfOk, IsTrue};
ghost use Rattle.std.specs.List.{list_all, list_any};
ghost use Rattle.lk_model.specs.Formulas.Formula.{clause_at, is_formula};
ghost use Rattle.lk_model.specs.Formulas.Lean.{are_positions};
ghost use Rattle.lk_model.specs.Documents.CoreText.{are_for, is_without};
ghost use Rattle.lk_model.specs.Checks.CoreChecks.{bad_without, satisfies_others};
ghost use Rattle.check_tables.specs.LiteralSets.{has_literal, IsSetOf};

use check_tables::LiteralSet;
use lk_model::{Formula, OutOfMemory, Without};
use std::alloc::Global;

/// The first position of a core whose literals leave the clause at another one unsatisfied. One set serves all
/// positions, so that each costs what its literals and the core's are. The error says that memory ran out.
pub(crate) fn bad_without(
    alloc: Global,
    f: &Formula,
    core: &[u32],
    withouts: &[Without],
) -> Result<Option<u32>, OutOfMemory>
    requires positions { IsTrue (are_positions f.now core.now) }
    requires lines { IsTrue (are_for core.now withouts.now) }
    requires count { length withouts.now ≡ length core.now }
    requires literals { IsTrue (list_all (is_without f.now.vars) withouts.now) }
    ensures { IfOk result (λ place. place ≡ (bad_without f.now core.now withouts.now).place) }
{
    let mut set = LiteralSet::new(alloc, f.vars())?;
    for k in 0..core.len() {
        if !satisfies_others(f, core, &withouts[k], &mut set) {
            return Ok(Some(core[k]));
        }
    }
    Ok(None)
}

/// Whether the literals satisfy the clause at each position of the core but their own. The set is empty before
/// and after.
fn satisfies_others(f: &Formula, core: &[u32], without: &Without, set: &mut LiteralSet) -> bool
    requires formula { IsTrue (is_formula f.now) }
    requires positions { IsTrue (are_positions f.now core.now) }
    requires literals { IsTrue (is_without f.now.vars without.now) }
    requires set { IsSetOf f.now.vars [] set.old }
    ensures value { result ≡ satisfies_others f.now core.now without.now }
    ensures set { IsSetOf f.now.vars [] set.new }
{
    let lits = without.lits.as_slice();
    set.add_all(lits);
    let satisfied = satisfies_each(f, core, without.pos, set);
    set.remove_all(lits);
    satisfied
}

/// Whether each position but one has a clause with a literal of the set.
fn satisfies_each(f: &Formula, core: &[u32], own: u32, set: &LiteralSet) -> bool
    requires positions { IsTrue (are_positions f.now core.now) }
    requires size { length set.now ≡ 2 * f.now.vars + 2 }
    ensures { result ≡ list_all (λ q. q == own || list_any (has_literal set.now) (clause_at f.now q)) core.now }
{
    for k in 0..core.len() {
        if !is_satisfied(f, core[k], own, set) {
            return false;
        }
    }
    true
}

/// Whether a position is this one, or has a clause with a literal of the set.
fn is_satisfied(f: &Formula, q: u32, own: u32, set: &LiteralSet) -> bool
    requires first { 0 < q }
    requires last { q ≤ length f.now.clauses }
    requires size { length set.now ≡ 2 * f.now.vars + 2 }
    ensures { result ≡ (q == own || list_any (has_literal set.now) (clause_at f.now q)) }
{
    q == own || set.has_any(f.clause(q))
}
