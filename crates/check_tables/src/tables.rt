//! Tables of positions and of variables.
ghost use Rattle.std.specs.Prelude.{IfOk, IsTrue};
ghost use Rattle.lk_model.specs.Lists.{rises_within};
ghost use Rattle.lk_model.specs.Formulas.Lean.{are_positions};
ghost use Rattle.check_tables.specs.Flags.{AreKeptFlags};
ghost use Rattle.check_tables.specs.Occurring.{AreOccurring};

use lk_model::{Formula, OutOfMemory, VarSet};
use std::alloc::Global;

/// Which of the positions from 1 to m are kept: at the place p - 1, counted from 0, whether p is in the
/// list, which ascends. The error says that memory ran out.
pub fn kept_flags(alloc: Global, m: u32, kept: &[u32]) -> Result<Vec<bool>, OutOfMemory>
    requires { IsTrue (rises_within 0 m kept.now) }
    ensures { IfOk result (λ flags. AreKeptFlags m kept.now flags.items) }
{
    let mut flags = vec![in alloc; false; m as usize]?;
    for p in kept {
        flags[*p as usize - 1] = true;
    }
    Ok(flags)
}

/// The variables of the formula's clauses at some positions, which count from 1 and ascend. The error
/// says that memory ran out.
pub fn occurring_at(alloc: Global, f: &Formula, kept: &[u32]) -> Result<VarSet, OutOfMemory>
    requires { IsTrue (are_positions f.now kept.now) }
    ensures { IfOk result (λ set. AreOccurring f.now kept.now set) }
{
    let mut set = VarSet::new(alloc, f.vars())?;
    set.add_clauses(f, kept);
    Ok(set)
}
