//! The variable that is decided next.
//!
//! At each conflict the scores of the variables that had to do with it grow, by an amount that itself grows. A heap has
//! each unset variable with its score. Entries with earlier scores stay in it until they come out, or until they are most
//! of it.
use crate::trail::Trail;
use lk_model::{Formula, Lit, OutOfMemory};
use std::alloc::Global;
use std::cmp::Reverse;
use std::collections::BinaryHeap;

// What a score grows by at the first conflict.
const FIRST_GROWTH: u64 = 1 << 20;

// The growth itself grows by this part of it at each conflict.
const GROWS_BY: u64 = 20;

// If the growth is larger, it and all scores are shifted right.
const MOST_GROWTH: u64 = 1 << 56;

// By this many bits.
const SHIFT: u32 = 40;

// The heap is made anew if it has more entries for each variable.
const ENTRIES: usize = 4;

/// Scores of variables, and the literals that were last true.
#[derive(Drop)]
pub(crate) struct Order {
    alloc: Global,
    /// By variable, with nothing at 0.
    scores: Vec<u64>,
    /// What a score grows by at the next conflict.
    growth: u64,
    heap: BinaryHeap<(u64, Reverse<u32>)>,
    /// By variable, whether the heap has it with its present score.
    is_in: Vec<bool>,
    /// By variable, the literal on it that was last true, and the negative one before there was any. Something at 0 that
    /// is not used.
    last: Vec<Lit>,
}

impl Order {
    /// The order of the variables of a formula, where nothing was learned.
    pub fn new(alloc: Global, f: &Formula) -> Result<Order, OutOfMemory> {
        let entries = (f.vars() as usize).saturating_add(1);
        let mut order = Order {
            alloc,
            scores: vec![in alloc; 0u64; entries]?,
            growth: FIRST_GROWTH,
            heap: BinaryHeap::new(alloc),
            is_in: vec![in alloc; false; entries]?,
            last: vec![in alloc; Lit::default(); entries]?,
        };
        for v in 1..f.vars() + 1 {
            order.note(Lit::from_var(v, false));
        }
        order.fill()?;
        Ok(order)
    }

    /// Makes the heap anew, of all variables.
    fn fill(&mut self) -> Result<(), OutOfMemory> {
        self.heap = BinaryHeap::new(self.alloc);
        for is_in in self.is_in.iter_mut() {
            *is_in = false;
        }
        for v in 1..self.last.len() {
            self.put(u32::try_from(v).unwrap_or(0))?;
        }
        Ok(())
    }

    /// Puts a variable into the heap, unless it is there.
    pub fn put(&mut self, v: u32) -> Result<(), OutOfMemory> {
        let score = self.scores.get(v as usize).copied().unwrap_or(0);
        if let Some(is_in) = self.is_in.get_mut(v as usize) {
            if !*is_in {
                *is_in = true;
                self.heap.push((score, Reverse(v)))?;
            }
        }
        Ok(())
    }

    /// Notes that a literal is true.
    pub fn note(&mut self, l: Lit) {
        if let Some(last) = self.last.get_mut(l.var() as usize) {
            *last = l;
        }
    }

    /// Raises the score of a variable that is set.
    pub fn raise(&mut self, v: u32) {
        let growth = self.growth;
        if let (Some(score), Some(is_in)) = (
            self.scores.get_mut(v as usize),
            self.is_in.get_mut(v as usize),
        ) {
            *score = score.saturating_add(growth);
            *is_in = false;
        }
    }

    /// A conflict is over.
    pub fn grow(&mut self) -> Result<(), OutOfMemory> {
        self.growth = self.growth.saturating_add(self.growth / GROWS_BY);
        if self.growth > MOST_GROWTH {
            for score in self.scores.iter_mut() {
                *score >>= SHIFT;
            }
            self.growth >>= SHIFT;
            return self.fill();
        }
        if self.heap.len() / ENTRIES > self.last.len() {
            return self.fill();
        }
        Ok(())
    }

    /// The literal that is decided next: that of the unset variable with the highest score.
    pub fn next(&mut self, trail: &Trail) -> Option<Lit> {
        for _ in 0..self.heap.len() {
            if let Some((score, Reverse(v))) = self.heap.pop() {
                self.take_out(v, score);
                if let Some(l) = self.last.get(v as usize) {
                    if !trail.is_set(*l) {
                        return Some(*l);
                    }
                }
            }
        }
        None
    }

    /// Notes that an entry came out of the heap.
    fn take_out(&mut self, v: u32, score: u64) {
        if self.scores.get(v as usize) == Some(&score) {
            if let Some(is_in) = self.is_in.get_mut(v as usize) {
                *is_in = false;
            }
        }
    }
}
