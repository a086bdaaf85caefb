//! What an elimination may spend.
//!
//! All of it is linear in the formula, so that an elimination that gains nothing costs little beside the search.
/// A resolvent has at most this many literals.
pub(crate) const MOST_LITERALS: usize = 20;

/// A variable that goes has at most this many clauses.
pub(crate) const MOST_OCCURRENCES: u32 = 1000;

// This many literals may be looked at for each literal and each variable of the formula.
const LOOKED_AT: u64 = 50;

// This many literals may be derived for each literal of the formula.
const DERIVED: u64 = 3;

/// How many literals may still be looked at, and how many may be derived.
#[derive(Clone, Copy)]
pub(crate) struct Allowance {
    work: u64,
    literals: u64,
}

impl Allowance {
    /// The allowance for a formula with these numbers of variables and literals.
    pub fn new(vars: u32, literals: usize) -> Allowance {
        let size = (literals as u64).saturating_add(u64::from(vars));
        Allowance {
            work: size.saturating_mul(LOOKED_AT),
            literals: (literals as u64).saturating_mul(DERIVED),
        }
    }

    /// Looks at this many literals.
    pub fn spend(&mut self, literals: usize) {
        self.work = self.work.saturating_sub(literals as u64);
    }

    /// Derives a clause of this many literals.
    pub fn derive(&mut self, literals: usize) {
        self.literals = self.literals.saturating_sub(literals as u64);
    }

    /// Spends all.
    pub fn end(&mut self) {
        self.work = 0;
    }

    /// Whether nothing is left of one of the two.
    pub fn is_spent(&self) -> bool {
        self.work == 0 || self.literals == 0
    }
}
