//! What a search by layers from all unmatched clauses has found so far.
ghost use Rattle.std.specs.Prelude.{◌≡◌, ◌-◌, ◌<◌, ◌≤◌, length, slice_index, IfOk, OnOk};
ghost use Rattle.matching_layers.specs.Found.{found_of, started, first_layers, unmatched_of, visited, entered};

use lk_model::OutOfMemory;
use std::alloc::Global;

/// What a search finds.
#[derive(Drop)]
pub struct Search {
    /// For each variable one more than the index of the clause that reached it, or 0.
    pub escape: Vec<u32>,
    /// For each index how many clauses the shortest walk to its clause has, or 0 where none leads there.
    pub layer: Vec<u32>,
    /// The free variable at which the search ended, or 0.
    pub end: u32,
    /// The layer of the clause that contains it, or 0.
    pub last: u32,
    /// The indices that are reached, in their order.
    pub queue: Vec<u32>,
}

impl Search {
    /// Only the unmatched clauses are reached.
    pub fn start(alloc: Global, vars: u32, of_clause: &[u32]) -> Result<Search, OutOfMemory>
        requires { length of_clause.now ≤ 4000000 }
        ensures { IfOk result (λ s. found_of s ≡ started of_clause.now vars) }
    {
        Ok(Search {
            escape: vec![in alloc; 0; vars as usize]?,
            layer: first_layers(alloc, of_clause)?,
            end: 0,
            last: 0,
            queue: unmatched(alloc, of_clause)?,
        })
    }

    /// The clause at an index reaches a variable.
    pub fn visit(&mut self, of_var: &[u32], index: u32, v: u32) -> Result<(), OutOfMemory>
        requires some { 0 < v }
        requires escapes { v ≤ length self.old.escape.items }
        requires vars { length of_var.now ≡ length self.old.escape.items }
        requires mate { slice_index of_var.now (v - 1) ≤ length self.old.layer.items }
        requires index { index < length self.old.layer.items }
        requires few { length self.old.layer.items ≤ 4000000 }
        requires low { slice_index self.old.layer.items index ≤ 4000000 }
        ensures { OnOk result (found_of self.new ≡ visited of_var.now index v (found_of self.old)) }
    {
        let k = v as usize - 1;
        if self.escape[k] != 0 {
            return Ok(());
        }
        self.escape[k] = index + 1;
        let mate = of_var[k];
        if mate == 0 {
            self.end = v;
            self.last = self.layer[index as usize];
            return Ok(());
        }
        let layer = self.layer[index as usize] + 1;
        self.enter(mate - 1, layer)
    }

    // A clause is reached.
    fn enter(&mut self, index: u32, layer: u32) -> Result<(), OutOfMemory>
        requires { index < length self.old.layer.items }
        ensures { OnOk result (found_of self.new ≡ entered index layer (found_of self.old)) }
    {
        self.queue.push(index)?;
        self.layer[index as usize] = layer;
        Ok(())
    }
}

// The indices of the clauses that have no variable.
fn unmatched(alloc: Global, of_clause: &[u32]) -> Result<Vec<u32>, OutOfMemory>
    requires { length of_clause.now ≤ 4000000 }
    ensures { IfOk result (λ v. v.items ≡ unmatched_of of_clause.now) }
{
    let count = of_clause.len() as u32;
    Ok(
        (0..count)
            .zip(of_clause)
            .filter(|(_, v)| **v == 0)
            .map(|(i, _)| i)
            .collect(alloc)?,
    )
}

// The clauses that have no variable are in the first layer.
fn first_layers(alloc: Global, of_clause: &[u32]) -> Result<Vec<u32>, OutOfMemory>
    ensures { IfOk result (λ v. v.items ≡ first_layers of_clause.now) }
{
    Ok(
        of_clause
            .iter()
            .map(|v| if *v == 0 { 1 } else { 0 })
            .collect(alloc)?,
    )
}
