//! Chains of resolutions.
use lk_model::{Lit, OutOfMemory};
use std::alloc::Global;

/// A turn whose number fits 32 bits.
#[derive(Clone, Copy)]
pub(crate) struct Resolution {
    pub on: Lit,
    pub with: u32,
}

/// Chains of clauses that are numbered one after another, their turns one after another.
#[derive(Drop)]
pub(crate) struct Chains {
    firsts: Vec<u32>,
    ends: Vec<usize>,
    resolutions: Vec<Resolution>,
}

impl Chains {
    /// No chain.
    pub fn new(alloc: Global) -> Chains {
        Chains {
            firsts: Vec::new(alloc),
            ends: Vec::new(alloc),
            resolutions: Vec::new(alloc),
        }
    }

    /// How many chains there are.
    pub fn len(&self) -> usize {
        self.firsts.len()
    }

    /// The number of the first clause of the chain at a place, from 0 on, and 0 past the last one.
    pub fn first(&self, place: usize) -> u32 {
        self.firsts.get(place).copied().unwrap_or(0)
    }

    /// The turns of the chain at a place, from 0 on, and none past the last one.
    pub fn resolutions(&self, place: usize) -> &[Resolution] {
        let begin = match place.checked_sub(1) {
            Some(before) => self.ends.get(before).copied().unwrap_or(0),
            None => 0,
        };
        let end = self.ends.get(place).copied().unwrap_or(0);
        self.resolutions.get(begin..end).unwrap_or(&[])
    }

    /// Appends a chain.
    pub fn push(&mut self, first: u32, resolutions: &[Resolution]) -> Result<(), OutOfMemory> {
        self.resolutions.extend_from_slice(resolutions)?;
        self.firsts.push(first)?;
        self.ends.push(self.resolutions.len())?;
        Ok(())
    }
}
