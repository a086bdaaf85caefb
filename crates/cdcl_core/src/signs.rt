//! The values with which variables are decided.
//!
//! A variable that is decided with the value that it last had keeps what parts of the clauses were satisfied with
//! (Pipatsrisawat and Darwiche, "A Lightweight Component Caching Scheme for Satisfiability Solvers", 2007). No contract
//! rests on the values.
use lk_model::{Lit, OutOfMemory};
use std::alloc::Global;
use watch_prop::Propagator;

/// With which value a variable is decided.
#[derive(Drop)]
pub enum Signs {
    /// True.
    True,
    /// The value that the variable last had, and true before it had one: by variable, with nothing at 0.
    Last(Vec<bool>),
}

impl Signs {
    /// The last values of variables up to n that have had none.
    pub fn last(alloc: Global, n: u32) -> Result<Signs, OutOfMemory> {
        Ok(Signs::Last(vec![in alloc; true; n as usize + 1]?))
    }

    /// The value with which a variable is decided.
    pub(crate) fn of(&self, v: u32) -> bool {
        match self {
            Signs::True => true,
            Signs::Last(values) => values.get(v as usize).copied().unwrap_or(true),
        }
    }

    /// Notes the values of what is set above a level, if last values are kept.
    pub(crate) fn note_above(&mut self, p: &Propagator, level: u32) {
        if let Signs::Last(values) = self {
            for place in (0..p.trail().len()).rev() {
                let l = p.trail()[place];
                if p.level(l.var()) <= Some(level) {
                    return;
                }
                note(values, l);
            }
        }
    }

    /// Notes the values of all that is set, if last values are kept.
    pub(crate) fn note_all(&mut self, p: &Propagator) {
        if let Signs::Last(values) = self {
            for l in p.trail() {
                note(values, *l);
            }
        }
    }
}

/// Notes the value that makes a literal true.
fn note(values: &mut Vec<bool>, l: Lit) {
    if let Some(value) = values.get_mut(l.var() as usize) {
        *value = l.positive();
    }
}
