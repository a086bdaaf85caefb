//! The literals that a matching makes true, ascending by variable.
ghost use Rattle.std.specs.Prelude.{◌≡◌, None, IfOk, Contains};
ghost use Rattle.lk_model.specs.Formulas.Formula.{clause_at};
ghost use Rattle.lk_model.specs.declared.document.Own.{Own as AnOwn};
ghost use Rattle.kernel_laws.specs.FirstTables.{IsFirstTable};
ghost use Rattle.matching_laws.specs.MatchingResults.{IsOwn, literal_on, set_line};

use lk_model::{Formula, List, Lit, OutOfMemory, Own};
use std::alloc::Global;

/// The literals that own lines of a formula make true: for each variable of a line the first literal on it
/// in the clause of the line, of two lines with one variable that of the first. They are on different
/// variables, and ascend by these. Each line needs a position of the formula, counted from 1, whose clause
/// has the variable of the line. Fails only if memory runs out.
pub fn set_of_own(alloc: Global, f: &Formula, own: &[Own]) -> Result<List<Lit>, OutOfMemory>
    requires own { (o : AnOwn) → Contains own.now o → IsOwn f.now o }
    ensures { IfOk result (λ set. set ≡ set_line f.now own.now) }
{
    let table = own_literals(alloc, f, own)?;
    Ok(List::from_vec(table.iter().filter_map(|entry| *entry).collect(alloc)?))
}

// The literals that own lines make true, each at the place of its variable. The lines are taken from the last
// one on, so that of two lines with one variable the first stays.
fn own_literals(alloc: Global, f: &Formula, own: &[Own]) -> Result<Vec<Option<Lit>>, OutOfMemory>
    requires own { (o : AnOwn) → Contains own.now o → IsOwn f.now o }
    ensures { IfOk result (λ table. IsFirstTable f.now.vars (λ (o : AnOwn). o.var)
        (λ o. literal_on (clause_at f.now o.pos) o.var) None None own.now table.items) }
{
    let mut table = vec![in alloc; None; f.vars() as usize]?;
    for i in (0..own.len()).rev() {
        let line = own[i];
        table[line.var as usize - 1] = literal_on(f.clause(line.pos), line.var);
    }
    Ok(table)
}

// The first literal of a clause on a variable.
fn literal_on(clause: &[Lit], v: u32) -> Option<Lit>
    ensures { result ≡ literal_on clause.now v }
{
    clause.iter().find(|l| l.var() == v).copied()
}
