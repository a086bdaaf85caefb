//! Unit clauses for what is true at level 0, and the empty clause.
use crate::search::Search;
use lk_model::{Lit, OutOfMemory};

impl Search {
    /// Derives the unit clauses of the literals of level 0 that have none yet.
    pub fn derive_units(&mut self) -> Result<(), OutOfMemory> {
        for place in self.derived..self.trail.len() {
            if let Some(l) = self.trail.at(place) {
                self.derive_unit(l)?;
            }
        }
        self.derived = self.trail.len();
        Ok(())
    }

    /// Derives the unit clause of a literal of level 0 from its reason.
    fn derive_unit(&mut self, l: Lit) -> Result<(), OutOfMemory> {
        let Some(reason) = self.trail.reason_of(l.var()) else {
            return Ok(());
        };
        let number = if self.clauses.literals(reason).len() == 1 {
            self.clauses.number(reason)
        } else {
            self.begin_chain(reason)?;
            self.take_others(reason, Some(l))?;
            self.resolve_units()?;
            self.chains.last()
        };
        if let Some(of) = self.units.get_mut(l.var() as usize) {
            *of = number;
        }
        Ok(())
    }

    /// Takes the literals of a clause in, but for one, which are all false at level 0.
    fn take_others(&mut self, index: usize, but: Option<Lit>) -> Result<(), OutOfMemory> {
        for i in 0..self.clauses.literals(index).len() {
            let l = self.clauses.literals(index).get(i).copied();
            if let Some(other) = l {
                if l != but {
                    self.take_unit(other)?;
                }
            }
        }
        Ok(())
    }

    /// Derives the empty clause from one that is false at level 0.
    pub fn refute(&mut self, conflict: usize) -> Result<(), OutOfMemory> {
        self.derive_units()?;
        self.begin_chain(conflict)?;
        self.take_others(conflict, None)?;
        self.resolve_units()
    }
}
