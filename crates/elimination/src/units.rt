//! Unit clauses and the values that they give.
use lk_model::{Lit, OutOfMemory};
use std::alloc::Global;

/// The literals that unit clauses make true, in the order in which these were found.
#[derive(Drop)]
pub(crate) struct Units {
    /// By variable, with nothing at 0.
    values: Vec<Option<bool>>,
    /// The number of the unit clause of a variable that has a value.
    numbers: Vec<u32>,
    trail: Vec<Lit>,
}

impl Units {
    /// No variable from 1 to n has a value.
    pub fn new(alloc: Global, n: u32) -> Result<Units, OutOfMemory> {
        let entries = (n as usize).saturating_add(1);
        Ok(Units {
            values: vec![in alloc; None; entries]?,
            numbers: vec![in alloc; 0u32; entries]?,
            trail: Vec::new(alloc),
        })
    }

    /// Makes a literal true by the unit clause of a number, unless its variable has a value.
    pub fn put(&mut self, l: Lit, number: u32) -> Result<(), OutOfMemory> {
        let at = l.var() as usize;
        if self.value(l.var()).is_some() {
            return Ok(());
        }
        if let (Some(value), Some(of)) = (self.values.get_mut(at), self.numbers.get_mut(at)) {
            *value = Some(l.positive());
            *of = number;
            self.trail.push(l)?;
        }
        Ok(())
    }

    /// The true literal that was found at a place, from 0 on.
    pub fn at(&self, place: usize) -> Option<Lit> {
        self.trail.get(place).copied()
    }

    /// How many literals are true.
    pub fn len(&self) -> usize {
        self.trail.len()
    }

    /// The value of a variable.
    pub fn value(&self, v: u32) -> Option<bool> {
        self.values.get(v as usize).copied().unwrap_or(None)
    }

    /// The number of the unit clause of a variable.
    pub fn number(&self, v: u32) -> u32 {
        self.numbers.get(v as usize).copied().unwrap_or(0)
    }

    /// Whether a literal is true.
    pub fn is_true(&self, l: Lit) -> bool {
        self.value(l.var()) == Some(l.positive())
    }

    /// Whether a literal is false.
    pub fn is_false(&self, l: Lit) -> bool {
        self.value(l.var()) == Some(!l.positive())
    }

    /// The true literals.
    pub fn into_trail(self) -> Vec<Lit> {
        self.trail
    }
}
