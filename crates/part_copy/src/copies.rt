//! Copies of parts.
ghost use Rattle.std.specs.Prelude.{◌≡◌, ℕ, List, [], ◌∷◌, map, length, IfOk, IsTrue};
ghost use Rattle.lk_model.specs.Lists.{rises_within};
ghost use Rattle.lk_model.specs.Formulas.Literal.{variable};
ghost use Rattle.lk_model.specs.Formulas.Formula.{is_formula, positions_of, clauses_at};
ghost use Rattle.lk_model.specs.Formulas.Lean.{are_positions};
ghost use Rattle.general_laws.specs.Found.{IsFound, IsUnfinished};
ghost use Rattle.matching_laws.specs.MatchingResults.{IsMatchingResult};
ghost use Rattle.renaming_laws.specs.Renaming.{nth};
ghost use Rattle.part_copy.specs.Copies.{AreTold, IsCopy, IsCopyOf, IsRenamingOf};
ghost use Rattle.part_copy.specs.Found.{IsPartModel, IsPartRefuted};

use crate::matchings::renamed;
use dense_copy::{dense_formula, names_of};
use lk_model::{Formula, General, List, Lit, MatchingResult, OutOfMemory, Round};
use result_renaming::{Renaming, nth, positions_at};
use std::alloc::Global;
use std::marker::Model;

/// The clauses of a formula at some positions, copied in their order into a formula whose variables are numbered from 1
/// without a gap, so that tables for the copy are as long as the part. What is found in all of the copy is stated in
/// the formula's numbers: variables, positions, and steps, which count on from the formula's number of clauses plus 1.
///
/// Contracts see the formula, the positions, the names of the copy's variables in the formula, and the copied clauses.
#[derive(Drop)]
pub struct PartCopy<'a> {
    formula: &'a Formula,
    part: List<u32>,
    names: List<u32>,
    clauses: Formula,
}

impl<'a> Model for PartCopy<'a> {
    ghost use Rattle.part_copy.specs.Copies.{Copy, IsCopy};

    ghost Value = { Copy };

    ghost view = { λ c. record { formula = c.formula.now; part = c.part; names = c.names; clauses = c.clauses } };

    ghost invariant = { λ c. IsCopy (record { formula = c.formula.now; part = c.part; names = c.names; clauses = c.clauses }) };
}

/// An open round over clauses that are a formula of their own.
#[derive(Drop)]
pub struct OpenRound {
    pub texts: Formula,
    pub round: Round,
}

impl<'a> PartCopy<'a> {
    /// The copy of the clauses at some positions, which ascend and count from 1. Time and memory are those of these
    /// clauses.
    pub fn of(alloc: Global, f: &'a Formula, part: &[u32]) -> Result<PartCopy<'a>, OutOfMemory>
        requires { IsTrue (are_positions f.now part.now) }
        ensures { IfOk result (IsCopyOf f.now part.now) }
    {
        // (by it contracts see that the formula is one)
        let _vars = f.vars();
        let names = names_of(alloc, f, part)?;
        let clauses = dense_formula(alloc, f, part, &names)?;
        Ok(PartCopy {
            formula: f,
            part: List::from_vec(Vec::from_slice(alloc, part)?),
            names: List::from_vec(names),
            clauses,
        })
    }

    /// The copy of some of its clauses, at places that ascend and count from 1. The variables keep their numbers.
    pub fn at(&self, alloc: Global, places: &[u32]) -> Result<PartCopy<'a>, OutOfMemory>
        requires { IsTrue (are_positions self.now.clauses places.now) }
        ensures own { IsCopy self.now }
        ensures copy { IfOk result (IsCopyOf self.now.formula (map (nth self.now.part) places.now)) }
        ensures clauses { IfOk result (λ c. c.clauses ≡ clauses_at self.now.clauses places.now) }
    {
        let clauses = self.clauses.clauses_at(alloc, places)?;
        let places = List::from_vec(Vec::from_slice(alloc, places)?);
        Ok(PartCopy {
            formula: self.formula,
            part: positions_at(self.part.as_slice(), places),
            names: List::from_vec(Vec::from_slice(alloc, self.names.as_slice())?),
            clauses,
        })
    }

    /// The copied clauses.
    pub fn clauses(&self) -> &Formula
        ensures clauses { result.now ≡ self.now.clauses }
        ensures copy { IsCopy self.now }
    {
        &self.clauses
    }

    /// The positions of the clauses that were copied.
    pub fn into_part(self) -> List<u32>
        ensures { result ≡ self.entry.part }
    {
        self.part
    }

    /// The position of the clause at a place of the copy, which counts from 1, and 0 past the last one.
    pub fn position(&self, place: u32) -> u32
        ensures { result ≡ nth self.now.part place }
    {
        nth(self.part.as_slice(), u64::from(place))
    }

    /// The positions of the clauses at some places of the copy.
    pub fn positions(&self, places: List<u32>) -> List<u32>
        ensures positions { result ≡ map (nth self.now.part) places }
        ensures copy { IsCopy self.now }
    {
        positions_at(self.part.as_slice(), places)
    }

    /// Literals on variables of the copy, ascending by variable. What they satisfy of the copy, they satisfy of the
    /// formula, and a model of the copy is one of the part.
    pub fn literals(&self, literals: List<Lit>) -> List<Lit>
        requires { IsTrue (rises_within 0 self.now.clauses.vars (map variable literals)) }
        ensures told { AreTold self.now literals result }
        ensures model { IsPartModel self.now.clauses (positions_of self.now.clauses) literals
            → IsPartModel self.now.formula self.now.part result }
    {
        self.renaming().literals(literals)
    }

    /// A refutation of the clauses at some places. Its steps are to have numbers of 64 bits.
    pub fn refutation(&self, alloc: Global, round: Round) -> Result<Round, OutOfMemory>
        ensures { (places : List ℕ) (conflicts : ℕ) → IsTrue (are_positions self.now.clauses places)
            → IsPartRefuted self.now.clauses places conflicts round
            → IfOk result (IsPartRefuted self.now.formula (map (nth self.now.part) places) conflicts) }
    {
        self.renaming().only(alloc, round)
    }

    /// A round that is open. Its steps are to have numbers of 64 bits.
    pub fn open(&self, alloc: Global, round: Round) -> Result<Round, OutOfMemory>
        ensures { (conflicts : ℕ) → IsUnfinished self.now.clauses (positions_of self.now.clauses) conflicts (round ∷ [])
            → IfOk result (λ r. IsUnfinished self.now.formula self.now.part conflicts (r ∷ [])) }
    {
        self.renaming().only(alloc, round)
    }

    /// A round that is open, stated for the clauses that were copied as a formula of their own. Its steps are to have
    /// numbers of 64 bits.
    pub fn open_alone(&self, alloc: Global, round: Round) -> Result<OpenRound, OutOfMemory>
        ensures texts { IfOk result (λ o. o.texts ≡ clauses_at self.now.formula self.now.part) }
        ensures form { IfOk result (λ o. IsTrue (is_formula o.texts)) }
        ensures round { (conflicts : ℕ) → IsUnfinished self.now.clauses (positions_of self.now.clauses) conflicts (round ∷ [])
            → IfOk result (λ o. IsUnfinished o.texts (positions_of o.texts) conflicts (o.round ∷ [])) }
    {
        let texts = self.formula.clauses_at(alloc, self.part.as_slice())?;
        let all = texts.positions(alloc)?;
        let renaming = Renaming {
            positions: u64::from(texts.len()),
            last: u64::from(texts.len()),
            part: all.as_slice(),
            names: self.names.as_slice(),
        };
        let round = renaming.only(alloc, round)?;
        Ok(OpenRound { texts, round })
    }

    /// What the general reducer finds in all of the copy. Its steps are to have numbers of 64 bits.
    pub fn general(&self, alloc: Global, found: General) -> Result<General, OutOfMemory>
        ensures { (conflicts : ℕ) → IsFound self.now.clauses (positions_of self.now.clauses) conflicts found
            → IfOk result (IsFound self.now.formula self.now.part conflicts) }
    {
        match found {
            General::Done(r) => Ok(General::Done(self.renaming().result(alloc, r)?)),
            General::Unfinished(rounds) => Ok(General::Unfinished(
                self.renaming().rounds(alloc, rounds)?,
            )),
        }
    }

    /// What the matching reducer finds in all of the copy.
    pub fn matching(&self, found: MatchingResult) -> MatchingResult
        requires { IsMatchingResult self.now.clauses (positions_of self.now.clauses) found }
        ensures { IsMatchingResult self.now.formula self.now.part result }
    {
        renamed(self.part.as_slice(), self.names.as_slice(), found)
    }

    // The formula's numbers.
    fn renaming(&self) -> Renaming<'_>
        ensures renaming { IsRenamingOf self.now result }
        ensures copy { IsCopy self.now }
    {
        Renaming {
            positions: self.part.len() as u64,
            last: u64::from(self.formula.len()),
            part: self.part.as_slice(),
            names: self.names.as_slice(),
        }
    }
}
