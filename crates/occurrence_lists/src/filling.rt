//! Lists of known sizes, one after another, that are being filled.
ghost use Rattle.std.specs.Prelude.{◌≡◌, ◌<◌, ◌≤◌, [], ℕ, length, map, slice_index, slice_index_or, sum, IfOk};
ghost use Rattle.lk_model.specs.Limits.{max_literals};
ghost use Rattle.occurrence_lists.specs.Parts.{Filled, placed};

use crate::lists::OccurrenceLists;
use lk_model::OutOfMemory;
use std::alloc::Global;
use std::marker::Model;

/// Lists of known sizes, each with the positions that it has so far. Contracts see the lists and the sizes.
#[derive(Drop)]
pub(crate) struct Filling {
    positions: Vec<u32>,
    /// Where each list ends once it has its size.
    ends: Vec<u32>,
    /// Where the next position of each list goes.
    next: Vec<u32>,
}

impl Model for Filling {
    ghost use Rattle.std.specs.Prelude.{length};
    ghost use Rattle.occurrence_lists.specs.Parts.{Filled, IsFilling, begun, sizes_of};

    ghost Value = { Filled };

    ghost view = { λ t. record { lists = begun 0 t.positions.items t.ends.items t.next.items; sizes = sizes_of 0 t.ends.items } };

    ghost invariant = { λ t. IsFilling t.ends.items t.next.items (length t.positions.items) };
}

impl Filling {
    /// Empty lists of these sizes.
    pub fn new(alloc: Global, sizes: &[u32]) -> Result<Filling, OutOfMemory>
        requires { sum sizes.now ≤ max_literals }
        ensures { IfOk result (λ t. t ≡ record { lists = map (λ _. []) sizes.now; sizes = sizes.now }) }
    {
        let mut ends = Vec::with_capacity(alloc, sizes.len())?;
        let mut next = Vec::with_capacity(alloc, sizes.len())?;
        let mut stop = 0u32;
        for size in sizes {
            next.push(stop)?;
            stop += *size;
            ends.push(stop)?;
        }
        let positions = vec![in alloc; 0; stop as usize]?;
        Ok(Filling {
            positions,
            ends,
            next,
        })
    }

    /// Appends a position to one of the lists.
    pub fn place(&mut self, k: usize, position: u32)
        requires { length (slice_index_or self.old.lists k []) < slice_index self.old.sizes k }
        ensures { self.new ≡ placed k position self.old }
    {
        let at = self.next[k];
        self.positions[at as usize] = position;
        self.next[k] = at + 1;
    }

    /// The lists, once each has its size. It takes no memory.
    pub fn finish(self) -> OccurrenceLists
        requires { (k : ℕ) → length (slice_index_or self.lists k []) ≡ slice_index self.sizes k }
        ensures { result ≡ self.lists }
    {
        OccurrenceLists::from_parts(self.positions, self.ends)
    }
}
