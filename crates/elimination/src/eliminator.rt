//! An elimination on its way.
use crate::chains::{Chains, Resolution};
use crate::marks::Marks;
use crate::table::Table;
use crate::units::Units;
use lk_model::{Formula, Lit, OpenClause, OutOfMemory};
use std::alloc::Global;

/// A variable that went: the literal on it that fewer clauses had, and the numbers of these.
#[derive(Drop)]
pub(crate) struct Removed {
    pub literal: Lit,
    pub clauses: Vec<u32>,
}

/// The clauses, live and dead; the chains of those that were derived; the values that unit clauses give; and the variables
/// that went, in their order.
#[derive(Drop)]
pub(crate) struct Eliminator {
    pub alloc: Global,
    pub table: Table,
    pub chains: Chains,
    pub units: Units,
    pub removed: Vec<Removed>,
    pub is_refuted: bool,
    /// How many of the true literals were propagated; of how many the clauses with them died; from how many the clauses
    /// against them were freed.
    pub propagated: usize,
    pub satisfied: usize,
    pub cleaned: usize,
    pub marks: Marks,
    // What is being derived.
    literals: Vec<Lit>,
    clause: OpenClause,
    resolutions: Vec<Resolution>,
}

impl Eliminator {
    /// The clauses of a formula, with the values of its unit clauses.
    pub fn of(alloc: Global, f: &Formula) -> Result<Eliminator, OutOfMemory> {
        let mut eliminator = Eliminator {
            alloc,
            table: Table::of(alloc, f)?,
            chains: Chains::new(alloc),
            units: Units::new(alloc, f.vars())?,
            removed: Vec::new(alloc),
            is_refuted: false,
            propagated: 0,
            satisfied: 0,
            cleaned: 0,
            marks: Marks::new(alloc, f.vars())?,
            literals: Vec::new(alloc),
            clause: OpenClause::new(alloc, f.vars())?,
            resolutions: Vec::new(alloc),
        };
        for k in 0..f.len() {
            eliminator.note(k + 1)?;
        }
        Ok(eliminator)
    }

    /// Whether the elimination ends here.
    pub fn is_over(&self) -> bool {
        self.is_refuted || self.table.allowance.is_spent()
    }

    /// Derives the clause of a number without the literals that are false by unit clauses.
    pub fn derive_rest(&mut self, number: u32) -> Result<bool, OutOfMemory> {
        self.resolutions.clear();
        self.take(number)?;
        self.derive(number)
    }

    /// Derives the resolvent on a literal of the clause with it and a clause against it, without such literals.
    pub fn derive_resolvent(
        &mut self,
        on: Lit,
        number: u32,
        with: u32,
    ) -> Result<bool, OutOfMemory> {
        self.resolutions.clear();
        self.resolutions.push(Resolution { on, with })?;
        self.take(number)?;
        self.join(on, with)?;
        self.derive(number)
    }

    /// Takes the literals of a clause.
    fn take(&mut self, number: u32) -> Result<(), OutOfMemory> {
        self.literals.clear();
        self.literals.extend_from_slice(self.table.clause(number))?;
        Ok(())
    }

    /// Makes the literals those of the resolvent.
    fn join(&mut self, on: Lit, with: u32) -> Result<(), OutOfMemory> {
        self.literals.retain(|l| *l != on);
        self.marks.mark_only(self.literals.as_slice());
        for l in self.table.clause(with) {
            if *l != on.negated() && !self.marks.has(*l) {
                self.literals.push(*l)?;
            }
        }
        Ok(())
    }

    /// Makes the next clause of the literals that are not false, unless it contains a live clause. Returns false if
    /// there is no room for it.
    fn derive(&mut self, first: u32) -> Result<bool, OutOfMemory> {
        self.resolve_false()?;
        if self
            .table
            .has_within(&mut self.marks, self.clause.literals())
        {
            return Ok(true);
        }
        if !self.table.push(&self.clause)? {
            return Ok(false);
        }
        self.chains.push(first, self.resolutions.as_slice())?;
        let number = self.table.len();
        self.note(number)?;
        Ok(true)
    }

    /// Resolves the false literals away and opens the clause of the others.
    fn resolve_false(&mut self) -> Result<(), OutOfMemory> {
        self.clause.clear();
        for l in self.literals.as_slice() {
            if self.units.is_false(*l) {
                self.resolutions.push(Resolution {
                    on: *l,
                    with: self.units.number(l.var()),
                })?;
            } else {
                put(&mut self.clause, *l)?;
            }
        }
        self.table.allowance.spend(self.literals.len());
        Ok(())
    }

    /// Takes the value of a live unit clause; an empty clause refutes.
    fn note(&mut self, number: u32) -> Result<(), OutOfMemory> {
        let first = match self.table.clause(number) {
            [] => None,
            [l] => Some(*l),
            _ => return Ok(()),
        };
        match first {
            Some(l) => self.units.put(l, number)?,
            None => self.is_refuted = true,
        }
        Ok(())
    }
}

/// Puts a literal into a clause that does not contain it.
fn put(clause: &mut OpenClause, l: Lit) -> Result<(), OutOfMemory> {
    if l.var() <= clause.vars() && !clause.holds(l) {
        clause.push(l)?;
    }
    Ok(())
}
