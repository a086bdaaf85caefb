//! The variables of a part.
ghost use Rattle.std.specs.Prelude.{◌≡◌, ◌++◌, map, IfOk, OnOk, IsTrue};
ghost use Rattle.lk_model.specs.Formulas.Literal.{variable};
ghost use Rattle.lk_model.specs.Formulas.Formula.{is_formula};
ghost use Rattle.lk_model.specs.Formulas.Lean.{are_positions};
ghost use Rattle.dense_copy.specs.Names.{AreInOrder, AreNames};

use lk_model::{Formula, Lit, OutOfMemory};
use std::alloc::Global;

/// The variables of the clauses at the positions, ascending, each once.
pub fn names_of(alloc: Global, f: &Formula, part: &[u32]) -> Result<Vec<u32>, OutOfMemory>
    requires formula { IsTrue (is_formula f.now) }
    requires part { IsTrue (are_positions f.now part.now) }
    ensures { IfOk result (λ names. AreNames f.now part.now names.items) }
{
    let mut names = Vec::new(alloc);
    for position in part {
        push_variables(&mut names, f.clause(*position))?;
    }
    Ok(in_order(names))
}

/// Numbers above 0, ascending, each once.
pub fn in_order(numbers: Vec<u32>) -> Vec<u32>
    ensures { AreInOrder numbers.items result.items }
{
    let mut rising = numbers;
    rising.sort_unstable();
    rising.dedup();
    rising
}

// Appends the variable of each literal.
fn push_variables(variables: &mut Vec<u32>, clause: &[Lit]) -> Result<(), OutOfMemory>
    ensures { OnOk result (variables.new.items ≡ variables.old.items ++ map variable clause.now) }
{
    for l in clause {
        variables.push(l.var())?;
    }
    Ok(())
}
