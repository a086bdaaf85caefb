//! One more pair, from a given start.
//!
//! A search in breadth from one unmatched clause, or, where the start is a free variable, from all unmatched clauses at
//! once, for an alternating path (Berge, "Two Theorems in Graph Theory", 1957), whose pairs are exchanged then.
ghost use Rattle.std.specs.Prelude.{◌≡◌, ◌+◌, ◌↔◌, OnErr, IfOk, IsTrue, false};
ghost use Rattle.lk_model.specs.Formulas.Lean.{are_positions};
ghost use Rattle.bipartite_match.specs.Matchings.{IsReady};
ghost use Rattle.bipartite_match.specs.Ways.{IsStart, HasWay, IsLonger};
ghost use Rattle.bipartite_match.specs.Covers.{HasCover, HasCoverBut};

use crate::exchange::{augment_found, index_of};
use crate::matching::Matching;
use crate::steps::Steps;
use crate::visits::Visits;
use lk_model::{Formula, OutOfMemory};
use std::alloc::Global;

/// Where a path is to begin: at a clause, by its position, or at a variable.
#[derive(Clone, Copy)]
pub enum Start {
    Clause(u32),
    Variable(u32),
}

/// Makes the matching of a part greater by one pair, if an alternating path leads from the start to a clause or a
/// variable without a partner: then it returns true, and what had a partner has one still. Otherwise, and without
/// memory, the matching stays as it is. It counts one step, and costs what its search visits.
pub fn augment<L>(
    alloc: Global,
    f: &Formula,
    part: &[u32],
    m: &mut Matching,
    from: Start,
    steps: &mut Steps<L>,
) -> Result<bool, OutOfMemory>
    requires part { IsTrue (are_positions f.now part.now) }
    requires ready { IsReady f.now part.now m.old }
    requires start { IsStart f.now part.now m.old from }
    ensures way { IfOk result (λ b. IsTrue b ↔ HasWay f.now part.now m.old from) }
    ensures longer { IfOk result (λ b. IsTrue b → IsLonger f.now part.now m.old m.new) }
    ensures same { IfOk result (λ b. b ≡ false → m.new ≡ m.old) }
    ensures restores { IfOk result (λ b. HasCoverBut f.now part.now m.old from → HasCover f.now part.now m.new) }
    ensures ready { IsReady f.now part.now m.new }
    ensures err { OnErr result (m.new ≡ m.old) }
    ensures step { steps.new ≡ steps.old + 1 }
{
    steps.tick();
    let visits = Visits::of(
        alloc,
        f,
        m.of_var.as_slice(),
        m.unmatched.as_slice(),
        &mut m.seen,
        from,
    )?;
    if visits.end == 0 {
        return Ok(false);
    }
    let root = augment_found(&visits, part, m);
    let place = index_of(m.unmatched.as_slice(), root);
    m.unmatched.remove(place);
    Ok(true)
}
