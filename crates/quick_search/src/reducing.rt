//! What is forgotten.
use crate::clauses::Clauses;
use crate::search::Search;
use lk_model::OutOfMemory;
use std::cmp::Reverse;

// A clause that was false at this many levels at most is never forgotten.
const FEW_LEVELS: u32 = 2;

impl Search {
    /// At level 0, where all is propagated and has unit clauses: forgets that half of the learned clauses that was false at
    /// more levels, the earlier one first, and all clauses that are satisfied.
    pub fn forget(&mut self) -> Result<(), OutOfMemory> {
        let stays = self.staying()?;
        let mut kept = Clauses::new(self.alloc, self.vars)?;
        self.held = 0;
        for index in 0..self.clauses.len() {
            if let Some(clause) = self.clauses.at(index) {
                if stays.get(index) == Some(&true) {
                    kept.push(clause.number, clause.levels, self.clauses.literals(index))?;
                    if clause.levels > 0 {
                        self.held = self.held.saturating_add(1);
                    }
                }
            }
        }
        self.clauses = kept;
        Ok(())
    }

    /// For each clause whether it stays.
    fn staying(&self) -> Result<Vec<bool>, OutOfMemory> {
        let mut stays = Vec::new(self.alloc);
        let mut others = Vec::new(self.alloc);
        for index in 0..self.clauses.len() {
            let levels = match self.clauses.at(index) {
                Some(clause) => clause.levels,
                None => 0,
            };
            let is_satisfied = self.is_satisfied(index);
            stays.push(!is_satisfied && levels <= FEW_LEVELS)?;
            if !is_satisfied && levels > FEW_LEVELS {
                others.push((levels, Reverse(index)))?;
            }
        }
        others.as_mut_slice().sort_unstable();
        for (_, Reverse(index)) in others.iter().take(others.len() / 2) {
            if let Some(slot) = stays.get_mut(*index) {
                *slot = true;
            }
        }
        Ok(stays)
    }

    /// Whether a literal of a clause is true.
    fn is_satisfied(&self, index: usize) -> bool {
        self.clauses
            .literals(index)
            .iter()
            .any(|l| self.trail.is_true(*l))
    }
}
