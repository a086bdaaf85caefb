//! Literals.
ghost use Rattle.std.specs.Prelude.{◌≡◌, ◌↔◌, ◌≤◌, ◌<◌, IsTrue, IsSome, IfSome};
ghost use Rattle.lk_model.specs.Limits.{max_vars};
ghost use Rattle.lk_model.specs.Formulas.Literal.{variable, complement, contains, is_clause, is_literal, is_positive};
ghost use Rattle.lk_model.specs.Formulas.Literal.{literal_of, rank_of};

use std::marker::Model;

/// A literal by its DIMACS number (DIMACS CNF 1993): v is the variable v, and -v its complement. It is
/// not 0 and lies within 1,000,000 of 0.
#[derive(Clone, Copy, PartialEq, Eq, PartialOrd, Ord, Debug)]
pub struct Lit {
    number: i32,
}

impl Model for Lit {
    ghost use Rattle.std.specs.Prelude.{ℤ, IsTrue};
    ghost use Rattle.lk_model.specs.Limits.{max_vars};
    ghost use Rattle.lk_model.specs.Formulas.Literal.{is_literal};

    ghost Value = { ℤ };

    ghost view = { λ l. l.number };

    ghost invariant = { λ l. IsTrue (is_literal max_vars l.number) };

    ghost inverse = { λ z. record { number = z } };
}

/// The literal 1, which fills the unused places of a small vector.
impl Default for Lit {
    fn default() -> Lit {
        Lit { number: 1 }
    }
}

impl Lit {
    /// The literal of this number, where there is one.
    pub fn new(x: i32) -> Option<Lit>
        ensures some { IsSome result ↔ IsTrue (is_literal max_vars x) }
        ensures value { IfSome result (λ l. l ≡ x) }
    {
        if x == 0 || x > 1_000_000 || x < -1_000_000 {
            None
        } else {
            Some(Lit { number: x })
        }
    }

    /// Its DIMACS number.
    pub fn get(self) -> i32
        ensures value { result ≡ self }
        ensures range { IsTrue (is_literal max_vars result) }
    {
        self.number
    }

    /// Its variable, from 1 to 1,000,000.
    pub fn var(self) -> u32
        ensures value { result ≡ variable self }
        ensures least { 0 < result }
        ensures greatest { result ≤ max_vars }
    {
        self.number.unsigned_abs()
    }

    /// Whether it is the variable itself, and not its complement.
    pub fn positive(self) -> bool
        ensures { result ≡ is_positive self }
    {
        self.number > 0
    }

    /// Its place where literals ascend by variable with the positive one first: twice the variable,
    /// and one more for the negative literal. Tables over literals are read at it.
    pub fn rank(self) -> usize
        ensures value { result ≡ rank_of self }
        ensures greatest { result ≤ 2000001 }
    {
        let twice = 2 * self.var() as usize;
        if self.positive() { twice } else { twice + 1 }
    }

    /// The literal of a variable from 1 to 1,000,000 that is true where the variable has this value.
    pub fn from_var(var: u32, value: bool) -> Lit
        requires first { 0 < var }
        requires last { var ≤ max_vars }
        ensures { result ≡ literal_of var value }
    {
        let number = var as i32;
        Lit {
            number: if value { number } else { -number },
        }
    }

    /// The other literal of its variable.
    pub fn negated(self) -> Lit
        ensures { result ≡ complement self }
    {
        Lit {
            number: -self.number,
        }
    }
}

/// Whether literals make a clause over the variables from 1 to n: none is of another variable, and none
/// stands twice. Meant for short clauses, since each literal is compared with those before it.
pub fn makes_clause(n: u32, lits: &[Lit]) -> bool
    ensures { result ≡ is_clause n lits.now }
{
    for i in 0..lits.len() {
        let l = lits[i];
        if l.var() > n {
            return false;
        }
        if stands_in(&lits[..i], l) {
            return false;
        }
    }
    true
}

/// Whether a literal stands among others.
pub(crate) fn stands_in(lits: &[Lit], l: Lit) -> bool
    ensures { result ≡ contains lits.now l }
{
    lits.contains(&l)
}
