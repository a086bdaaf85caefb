//! What is true, and why.
use lk_model::{Lit, OutOfMemory};
use std::alloc::Global;

/// The literals that are true, in the order in which they became true.
#[derive(Drop)]
pub(crate) struct Trail {
    /// How many of them were propagated.
    pub head: usize,
    /// By the rank of a literal, whether it is true.
    truths: Vec<bool>,
    /// By variable, with nothing at 0.
    levels: Vec<u32>,
    /// By variable, the index of the clause that forced its value.
    reasons: Vec<Option<usize>>,
    /// By variable, its place in the trail.
    places: Vec<usize>,
    literals: Vec<Lit>,
    /// Where each level above 0 begins.
    begins: Vec<usize>,
}

impl Trail {
    /// Nothing is true of the variables from 1 to n.
    pub fn new(alloc: Global, n: u32) -> Result<Trail, OutOfMemory> {
        let entries = (n as usize).saturating_add(1);
        Ok(Trail {
            head: 0,
            truths: vec![in alloc; false; entries.saturating_mul(2)]?,
            levels: vec![in alloc; 0u32; entries]?,
            reasons: vec![in alloc; None; entries]?,
            places: vec![in alloc; 0usize; entries]?,
            literals: Vec::new(alloc),
            begins: Vec::new(alloc),
        })
    }

    /// How many literals are true.
    pub fn len(&self) -> usize {
        self.literals.len()
    }

    /// The literal at a place, from 0 on.
    pub fn at(&self, place: usize) -> Option<Lit> {
        self.literals.get(place).copied()
    }

    /// The present level: 0 before the first decision.
    pub fn level(&self) -> u32 {
        u32::try_from(self.begins.len()).unwrap_or(u32::MAX)
    }

    /// Whether a literal is true.
    pub fn is_true(&self, l: Lit) -> bool {
        self.truths.get(l.rank()).copied().unwrap_or(false)
    }

    /// Whether a literal is false.
    pub fn is_false(&self, l: Lit) -> bool {
        self.is_true(l.negated())
    }

    /// Whether the variable of a literal has a value.
    pub fn is_set(&self, l: Lit) -> bool {
        self.is_true(l) || self.is_false(l)
    }

    /// The level at which a variable was set.
    pub fn level_of(&self, v: u32) -> u32 {
        self.levels.get(v as usize).copied().unwrap_or(0)
    }

    /// The index of the clause that forced the value of a variable. None if it was decided.
    pub fn reason_of(&self, v: u32) -> Option<usize> {
        self.reasons.get(v as usize).copied().unwrap_or(None)
    }

    /// The place of a variable that is set.
    pub fn place_of(&self, v: u32) -> usize {
        self.places.get(v as usize).copied().unwrap_or(0)
    }

    /// Where a level begins, from 0 on.
    pub fn begin_of(&self, level: u32) -> usize {
        match (level as usize).checked_sub(1) {
            Some(above) => self.begins.get(above).copied().unwrap_or(self.len()),
            None => 0,
        }
    }

    /// Makes a literal true at the present level.
    pub fn put(&mut self, l: Lit, reason: Option<usize>) -> Result<(), OutOfMemory> {
        let at = l.var() as usize;
        let level = self.level();
        let place = self.literals.len();
        self.literals.push(l)?;
        if let (Some(truth), Some(of)) = (self.truths.get_mut(l.rank()), self.levels.get_mut(at)) {
            *truth = true;
            *of = level;
        }
        if let (Some(by), Some(to)) = (self.reasons.get_mut(at), self.places.get_mut(at)) {
            *by = reason;
            *to = place;
        }
        Ok(())
    }

    /// Opens a level.
    pub fn open(&mut self) -> Result<(), OutOfMemory> {
        self.begins.push(self.literals.len())?;
        Ok(())
    }

    /// Takes back the last literal.
    pub fn pop(&mut self) -> Option<Lit> {
        let l = self.literals.pop()?;
        if let Some(truth) = self.truths.get_mut(l.rank()) {
            *truth = false;
        }
        Some(l)
    }

    /// Closes the levels above one, whose literals are taken back.
    pub fn close(&mut self, level: u32) {
        self.begins.truncate(level as usize);
        self.head = self.literals.len();
    }

    /// The literals.
    pub fn literals(&self) -> &[Lit] {
        self.literals.as_slice()
    }
}
