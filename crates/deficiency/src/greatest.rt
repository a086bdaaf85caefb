//! The maximal deficiency.
//!
//! The deficiency of a set of clauses is the number of them less the number of variables that occur in them. Its
//! greatest value over all sets of clauses of a formula is how many clauses a maximum matching leaves without a
//! variable of their own (König's theorem, as Hall's with a defect: Ore, "Graphs and Matching Theorems", 1955), and the
//! matching kernel has it: it is the least set that does (Kullmann, "Lean Clause-Sets: Generalizations of Minimally
//! Unsatisfiable Clause-Sets", 2003; the contracts say only that it has it).
//!
//! One maximum matching and one search from what it leaves give all three fields of the result. What shows the value is
//! so small that it can be checked by counting: the set from below, the variables of the clauses' own from above.
ghost use Rattle.std.specs.Prelude.{◌≡◌, ◌+◌, ◌≤◌, length, IfOk, IsTrue};
ghost use Rattle.lk_model.specs.Formulas.Formula.{positions_of};
ghost use Rattle.lk_model.specs.Formulas.Lean.{are_positions, Kernel};
ghost use Rattle.lk_model.specs.declared.class.Class.TheVariants.{Matching as TheMatching};
ghost use Rattle.bipartite_match.specs.Matchings.{IsMaximum};
ghost use Rattle.deficiency.specs.Deficiency.{AreOwners, HasDeficiency, IsMaxDeficiency, pairs_of};

use bipartite_match::{Matching, maximum, reach};
use lk_model::{Formula, List, OutOfMemory, Own};
use matching_kernel::kernel_reached_law;
use std::alloc::Global;

/// The maximal deficiency of a formula.
#[derive(Drop)]
pub struct Deficiency {
    /// The greatest number of clauses less occurring variables.
    pub value: u32,
    /// The positions of the matching kernel, ascending, which have this value.
    pub kept: List<u32>,
    /// All but `value` positions, ascending, with a variable of their clause each; none stands twice.
    pub own: List<Own>,
}

/// The maximal deficiency of the formula, with the matching kernel, which has it, and a matching of all clauses but
/// that many. It costs a maximum matching and a search.
pub fn max_deficiency(alloc: Global, f: &Formula) -> Result<Deficiency, OutOfMemory>
    ensures value { IfOk result (λ d. IsMaxDeficiency f.now d.value) }
    ensures kept { IfOk result (λ d. Kernel TheMatching f.now d.kept) }
    ensures kept_has_it { IfOk result (λ d. HasDeficiency f.now d.kept d.value) }
    ensures own { IfOk result (λ d. AreOwners f.now d.own) }
    ensures own_all_but { IfOk result (λ d. length d.own + d.value ≡ length f.now.clauses) }
{
    let part = f.positions(alloc)?;
    let m = maximum(alloc, f, part.as_slice())?;
    by_matching(alloc, f, part.as_slice(), &m)
}

// As `max_deficiency`, by a maximum matching of all clauses.
fn by_matching(
    alloc: Global,
    f: &Formula,
    part: &[u32],
    m: &Matching,
) -> Result<Deficiency, OutOfMemory>
    requires part { part.now ≡ positions_of f.now }
    requires positions { IsTrue (are_positions f.now part.now) }
    requires maximum { IsMaximum f.now part.now m.now }
    ensures value { IfOk result (λ d. IsMaxDeficiency f.now d.value) }
    ensures kept { IfOk result (λ d. Kernel TheMatching f.now d.kept) }
    ensures kept_has_it { IfOk result (λ d. HasDeficiency f.now d.kept d.value) }
    ensures own { IfOk result (λ d. AreOwners f.now d.own) }
    ensures own_all_but { IfOk result (λ d. length d.own + d.value ≡ length f.now.clauses) }
{
    let reached = reach(alloc, f, part, m)?;
    let own = pairs(alloc, part, m.of_clause.as_slice())?;
    kernel_reached_law();
    Ok(Deficiency {
        value: left_of(f.len(), &own),
        kept: reached.kept,
        own: List::from_vec(own),
    })
}

/// The clauses of the part that have a variable, with it.
fn pairs(alloc: Global, part: &[u32], of_clause: &[u32]) -> Result<Vec<Own>, OutOfMemory>
    requires { length part.now ≡ length of_clause.now }
    ensures { IfOk result (λ own. own.items ≡ pairs_of part.now of_clause.now) }
{
    let mut own = Vec::new(alloc);
    for (i, pos) in part.iter().enumerate() {
        let var = of_clause[i];
        if var != 0 {
            own.push(Own { pos: *pos, var })?;
        }
    }
    Ok(own)
}

/// How many clauses have none.
fn left_of(clauses: u32, own: &[Own]) -> u32
    requires { length own.now ≤ clauses }
    ensures { length own.now + result ≡ clauses }
{
    clauses - own.len() as u32
}
