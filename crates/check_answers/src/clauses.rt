//! The check of the clauses that are written of a core.
ghost use Rattle.std.specs.Prelude.{◌≡◌, length, IsTrue};
ghost use Rattle.lk_model.specs.Formulas.Lean.{are_positions};
ghost use Rattle.lk_model.specs.Formulas.Literal.{is_same_list};
ghost use Rattle.lk_model.specs.Checks.CoreChecks.{core_clause};

use lk_model::{Formula, Lit, MusAnswer};

/// The first position of a core whose clause line is not the formula's clause.
pub(crate) fn changed_clause(f: &Formula, a: &MusAnswer) -> Option<u32>
    requires positions { IsTrue (are_positions f.now a.now.core) }
    requires lines { length a.now.texts.clauses ≡ length a.now.core }
    ensures { result ≡ (core_clause f.now a.now).place }
{
    let core = a.core.as_slice();
    for i in 0..a.texts.len() {
        let p = core[i as usize];
        if !is_same_list(a.texts.clause(i + 1), f.clause(p)) {
            return Some(p);
        }
    }
    None
}

/// Whether two clauses are the same literals in the same order.
fn is_same_list(one: &[Lit], other: &[Lit]) -> bool
    ensures { result ≡ is_same_list one.now other.now }
{
    one == other
}
