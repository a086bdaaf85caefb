//! Marked literals.
use lk_model::{Lit, OutOfMemory};
use std::alloc::Global;

/// The literals of one clause. A literal is marked if its entry is the last stamp, so that no mark is ever taken back.
#[derive(Drop)]
pub(crate) struct Marks {
    stamp: u32,
    /// By the rank of a literal.
    stamps: Vec<u32>,
}

impl Marks {
    /// None is marked of the literals over the variables from 1 to n.
    pub fn new(alloc: Global, n: u32) -> Result<Marks, OutOfMemory> {
        Ok(Marks {
            stamp: 0,
            stamps: vec![in alloc; 0u32; ranks(n)]?,
        })
    }

    /// Marks the literals of a clause and no other.
    pub fn mark_only(&mut self, clause: &[Lit]) {
        self.stamp = self.stamp.wrapping_add(1);
        for l in clause {
            if let Some(stamp) = self.stamps.get_mut(l.rank()) {
                *stamp = self.stamp;
            }
        }
    }

    /// Whether a literal is marked.
    pub fn has(&self, l: Lit) -> bool {
        self.stamps.get(l.rank()) == Some(&self.stamp)
    }

    /// Whether each literal of a clause is marked.
    pub fn has_all(&self, clause: &[Lit]) -> bool {
        clause.iter().all(|l| self.has(*l))
    }
}

/// How many entries a table has that is read at the ranks of the literals over the variables from 1 to n.
pub(crate) fn ranks(n: u32) -> usize {
    (n as usize).saturating_mul(2).saturating_add(2)
}
