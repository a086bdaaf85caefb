//! How many clauses contain each literal.
ghost use Rattle.std.specs.Prelude.{◌<◌, ◌≤◌, ℕ, length, slice_index, sum, IfOk, IsTrue};
ghost use Rattle.lk_model.specs.Limits.{max_clauses, max_literals};
ghost use Rattle.lk_model.specs.Formulas.Literal.{is_distinct};
ghost use Rattle.occurrence_lists.specs.Occurrences.{has_rank};
ghost use Rattle.occurrence_lists.specs.Noting.{AreCounts, CountsClause};

use lk_model::{Formula, Lit, LitTable, OutOfMemory};
use std::alloc::Global;

/// How many clauses contain each literal.
pub(crate) fn count_literals(alloc: Global, f: &Formula) -> Result<LitTable<u32>, OutOfMemory>
    ensures counts { IfOk result (AreCounts f.now (length f.now.clauses)) }
    ensures few { IfOk result (λ counts. sum counts ≤ max_literals) }
{
    let mut counts = LitTable::new(alloc, f.vars(), 0)?;
    for i in 0..f.len() {
        count_clause(&mut counts, f.clause(i + 1));
    }
    Ok(counts)
}

/// Counts a clause more at each of its literals.
fn count_clause(counts: &mut LitTable<u32>, clause: &[Lit])
    requires clause { IsTrue (is_distinct clause.now) }
    requires within { (k : ℕ) → IsTrue (has_rank clause.now k) → k < length counts.old }
    requires few { (k : ℕ) → slice_index counts.old k < max_clauses }
    ensures { CountsClause clause.now counts.old counts.new }
{
    for l in clause {
        counts[*l] += 1;
    }
}
