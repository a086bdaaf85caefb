//! What alternating walks reach.
//!
//! From the clauses that a maximum matching leaves without a variable, a walk goes to any variable of a clause, and
//! from there to the clause that has this variable. What such walks reach is one of the sets into which maximum
//! matchings divide a bipartite graph (Dulmage and Mendelsohn, "Coverings of Bipartite Graphs", 1958): the set with
//! more clauses than variables.
//!
//! Here each variable that is reached is given an escape and a rank besides, so that who reads the result can see
//! without a search that its clauses are lean for matching autarkies.
ghost use Rattle.std.specs.Prelude.{◌≡◌, ◌≢◌, ◌+◌, ◌-◌, ◌≤◌, ℕ, List, length, slice_index, map, IfOk, IsTrue};
ghost use Rattle.lk_model.specs.Formulas.Lean.{are_positions};
ghost use Rattle.bipartite_match.specs.Matchings.{IsMaximum};
ghost use Rattle.bipartite_match.specs.Walks.{IsReached};
ghost use Rattle.bipartite_match.specs.Found.{kept_of, rank_of};

use crate::matching::Matching;
use crate::mates::{Mates, into_positions};
use crate::search::search_by_layers;
use lk_model::{Formula, List, OutOfMemory};
use std::alloc::Global;

/// What alternating walks from the unmatched clauses of a part reach: the positions, ascending, and for each variable
/// of their clauses an escape, which is a kept position whose clause has the variable, and a rank, which is less for
/// the variable that is matched with the escape. Other variables have 0.
#[derive(Drop)]
pub struct Reached {
    pub kept: List<u32>,
    pub escape: List<u32>,
    pub rank: List<u32>,
}

/// What alternating walks from the unmatched clauses of the part reach.
pub fn reach(alloc: Global, f: &Formula, part: &[u32], m: &Matching) -> Result<Reached, OutOfMemory>
    requires positions { IsTrue (are_positions f.now part.now) }
    requires maximum { IsMaximum f.now part.now m.now }
    ensures { IfOk result (λ r. IsReached f.now part.now m.now r) }
{
    let mates = by_indices(alloc, f.vars(), m.of_clause.as_slice())?;
    let search = search_by_layers(alloc, f, part, &mates)?;
    Ok(Reached {
        kept: List::from_vec(kept(alloc, part, &search.layer)?),
        rank: List::from_vec(ranks(alloc, &search.layer, &search.escape)?),
        escape: into_positions(part, search.escape),
    })
}

// The matching by indices.
fn by_indices(alloc: Global, vars: u32, of_clause: &[u32]) -> Result<Mates, OutOfMemory>
    requires few { length of_clause.now ≤ 4000000 }
    requires within { (i : ℕ) → slice_index of_clause.now i ≤ vars }
    ensures clauses { IfOk result (λ m. m.of_clause.items ≡ of_clause.now) }
    ensures length { IfOk result (λ m. length m.of_var.items ≡ vars) }
    ensures paired { IfOk result (λ m. (k : ℕ) → slice_index m.of_var.items k ≢ 0
        → slice_index of_clause.now (slice_index m.of_var.items k - 1) ≡ k + 1) }
    ensures held { IfOk result (λ m. (i : ℕ) → slice_index of_clause.now i ≢ 0
        → slice_index m.of_var.items (slice_index of_clause.now i - 1) ≢ 0) }
{
    let mut of_var = vec![in alloc; 0; vars as usize]?;
    for (i, v) in of_clause.iter().enumerate() {
        if *v != 0 {
            of_var[*v as usize - 1] = i as u32 + 1;
        }
    }
    Ok(Mates {
        of_clause: of_clause.to_vec(alloc)?,
        of_var,
    })
}

// The positions of the clauses in some layer.
fn kept(alloc: Global, part: &[u32], layer: &[u32]) -> Result<Vec<u32>, OutOfMemory>
    ensures { IfOk result (λ v. v.items ≡ kept_of part.now layer.now) }
{
    Ok(
        part.iter()
            .zip(layer)
            .filter(|(_, layer)| **layer != 0)
            .map(|(p, _)| *p)
            .collect(alloc)?,
    )
}

// For each variable the layer of the clause that reached it.
fn ranks(alloc: Global, layer: &[u32], escape: &[u32]) -> Result<Vec<u32>, OutOfMemory>
    ensures { IfOk result (λ v. v.items ≡ map (rank_of layer.now) escape.now) }
{
    Ok(
        escape
            .iter()
            .map(|index| rank_at(layer, *index))
            .collect(alloc)?,
    )
}

// The layer of the clause for a number that is one more than its index, and 0 for 0.
fn rank_at(layer: &[u32], number: u32) -> u32
    ensures { result ≡ rank_of layer.now number }
{
    match layer.get((number as usize).wrapping_sub(1)) {
        Some(rank) => *rank,
        None => 0,
    }
}
