//! Marked numbers.
use lk_model::OutOfMemory;
use std::alloc::Global;

/// Marks on the numbers from 0 to n. A number is marked if its entry is the last stamp, so that no mark is ever taken
/// back one by one.
#[derive(Drop)]
pub(crate) struct Marks {
    stamp: u32,
    stamps: Vec<u32>,
}

impl Marks {
    /// No number up to n is marked.
    pub fn new(alloc: Global, n: u32) -> Result<Marks, OutOfMemory> {
        Ok(Marks {
            stamp: 1,
            stamps: vec![in alloc; 0u32; (n as usize).saturating_add(1)]?,
        })
    }

    /// Takes all marks back.
    pub fn clear(&mut self) {
        self.stamp = self.stamp.wrapping_add(1);
    }

    /// Marks a number, and returns whether it was not marked.
    pub fn mark(&mut self, k: u32) -> bool {
        let stamp = self.stamp;
        match self.stamps.get_mut(k as usize) {
            Some(of) => {
                let is_new = *of != stamp;
                *of = stamp;
                is_new
            }
            None => false,
        }
    }

    /// Takes the mark of a number back.
    pub fn unmark(&mut self, k: u32) {
        if let Some(of) = self.stamps.get_mut(k as usize) {
            *of = 0;
        }
    }

    /// Whether a number is marked.
    pub fn has(&self, k: u32) -> bool {
        self.stamps.get(k as usize) == Some(&self.stamp)
    }
}
