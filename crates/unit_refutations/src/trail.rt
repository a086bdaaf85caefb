//! What is true, in the order in which it came.
ghost use Rattle.std.specs.Prelude.{◌≡◌, ◌<◌, ◌≤◌, ◌+◌, ◌*◌, ◌-◌, ◌++◌, ◌∷◌, [], None, Some, ℤ, length, replicate};
ghost use Rattle.std.specs.Prelude.{slice_index, slice_index_or, slice_set, IfOk, OnOk};
ghost use Rattle.lk_model.specs.Limits.{max_vars};
ghost use Rattle.lk_model.specs.Formulas.Literal.{rank_of};
ghost use Rattle.unit_refutations.specs.Trails.{place_of, is_true_in};

use lk_model::{Lit, LitTable, OutOfMemory};
use std::alloc::Global;
use std::marker::Model;

/// The literals that came to be true, in their order, each with the position of the clause that forced it, and for each
/// literal its place, where it is true. What is taken back leaves its place empty, and nothing moves up.
#[derive(Drop)]
pub(crate) struct Trail {
    lits: Vec<Lit>,
    reasons: Vec<u32>,
    places: LitTable<Option<usize>>,
}

impl Model for Trail {
    ghost use Rattle.unit_refutations.specs.Trails.{Came};

    ghost Value = { Came };

    ghost view = { λ t. record {
      lits = t.lits.items;
      reasons = t.reasons.items;
      places = t.places;
    } };
}

impl Trail {
    /// Where no literal over the variables from 1 to n is true.
    pub fn new(alloc: Global, n: u32) -> Result<Trail, OutOfMemory>
        requires { n ≤ max_vars }
        ensures lits { IfOk result (λ t. t.lits ≡ []) }
        ensures reasons { IfOk result (λ t. t.reasons ≡ []) }
        ensures places { IfOk result (λ t. t.places ≡ replicate (2 * n + 2) None) }
    {
        Ok(Trail {
            lits: Vec::new(alloc),
            reasons: Vec::new(alloc),
            places: LitTable::new(alloc, n, None)?,
        })
    }

    /// The place of a literal, where it is true.
    pub fn place(&self, l: Lit) -> Option<usize>
        requires { rank_of l < length self.now.places }
        ensures { result ≡ place_of self.now l }
    {
        self.places[l]
    }

    /// Whether a literal is true.
    pub fn is_true(&self, l: Lit) -> bool
        requires { rank_of l < length self.now.places }
        ensures { result ≡ is_true_in self.now l }
    {
        self.places[l].is_some()
    }

    /// The literal that came at a place.
    pub fn lit(&self, place: usize) -> Lit
        requires { place < length self.now.lits }
        ensures { result ≡ slice_index_or self.now.lits place result }
    {
        self.lits[place]
    }

    /// The position of the clause that forced it.
    pub fn reason(&self, place: usize) -> u32
        requires { place < length self.now.reasons }
        ensures { result ≡ slice_index self.now.reasons place }
    {
        self.reasons[place]
    }

    /// The position of the clause that forced a literal, where it is true.
    pub fn reason_of(&self, l: Lit) -> Option<u32> {
        let place = self.places.as_slice().get(l.rank()).copied()??;
        self.reasons.get(place).copied()
    }

    /// Makes a literal true that the clause at a position forces.
    pub fn put(&mut self, l: Lit, position: u32) -> Result<(), OutOfMemory>
        requires { rank_of l < length self.old.places }
        ensures lits { OnOk result (self.new.lits ≡ self.old.lits ++ l ∷ []) }
        ensures reasons { OnOk result (self.new.reasons ≡ self.old.reasons ++ position ∷ []) }
        ensures places { OnOk result
            (self.new.places ≡ slice_set self.old.places (rank_of l) (Some (length self.old.lits))) }
    {
        let place = self.lits.len();
        self.lits.push(l)?;
        self.reasons.push(position)?;
        self.places[l] = Some(place);
        Ok(())
    }

    /// Takes the value of a variable back, where it has one.
    pub fn take_back(&mut self, v: u32)
        requires first { 0 < v }
        requires last { 2 * v + 1 < length self.old.places }
        requires few { v ≤ max_vars }
        ensures lits { self.new.lits ≡ self.old.lits }
        ensures reasons { self.new.reasons ≡ self.old.reasons }
        ensures places { self.new.places ≡ slice_set (slice_set self.old.places (2 * v) None) (2 * v + 1) None }
    {
        self.places[Lit::from_var(v, true)] = None;
        self.places[Lit::from_var(v, false)] = None;
    }
}
