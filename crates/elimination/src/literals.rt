//! How many literals a formula has.
ghost use Rattle.std.specs.Prelude.{◌≡◌};
ghost use Rattle.lk_model.specs.Formulas.Formula.{literal_count, IsWithinLimits};

use lk_model::Formula;

/// How many literals the clauses of a formula have together.
pub fn literals_in(f: &Formula) -> usize
    ensures count { result ≡ literal_count f.now }
    ensures limits { IsWithinLimits f.now }
{
    let mut literals = 0;
    for k in 0..f.len() {
        literals += f.clause(k + 1).len();
    }
    literals
}
