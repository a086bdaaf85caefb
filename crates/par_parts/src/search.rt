//! The search for parts.
ghost use Rattle.std.specs.Prelude.{◌≡◌, ◌+◌, ◌*◌, ◌<◌, ◌≤◌, ℕ, [], length};
ghost use Rattle.std.specs.Prelude.{nat_lt, IfOk, OnOk, IsTrue};
ghost use Rattle.std.specs.List.{list_all, All};
ghost use Rattle.lk_model.specs.Limits.{max_clauses};
ghost use Rattle.lk_model.specs.Formulas.Literal.{variable};
ghost use Rattle.occurrence_lists.specs.Occurrences.{AreOccurrences};
ghost use Rattle.par_parts.specs.Positions.{HavePositions, positions_of_variable};
ghost use Rattle.par_parts.specs.Numbering.{found_of, none_found, labelled, all_labelled, variable_passed};
ghost use Rattle.par_parts.specs.Numbering.{clause_passed, part_begun, AreLabels, IsSearching, IsSpread, IsUpTo};

use lk_model::{Formula, Lit, OutOfMemory};
use occurrence_lists::OccurrenceLists;
use std::alloc::Global;

/// What a search knows.
#[derive(Drop)]
pub(crate) struct Search {
    /// For each position, as an index, the number of its part, or 0.
    pub labels: Vec<u32>,
    // For each variable, as an index, the number of the part of the clauses that mention it, or 0.
    owners: Vec<u32>,
    // The positions that have a number and were not passed.
    pending: Vec<u32>,
    /// For each part its least position.
    pub roots: Vec<u32>,
}

impl Search {
    // A search that has found nothing.
    fn new(alloc: Global, f: &Formula) -> Result<Search, OutOfMemory>
        ensures { IfOk result (λ s. found_of s ≡ none_found (length f.now.clauses) f.now.vars) }
    {
        Ok(Search {
            labels: vec![in alloc; 0; f.len() as usize + 1]?,
            owners: vec![in alloc; 0; f.vars() as usize + 1]?,
            pending: Vec::new(alloc),
            roots: Vec::new(alloc),
        })
    }

    // A position that has no number gets this one, and waits.
    fn label(&mut self, part: u32, p: u32) -> Result<(), OutOfMemory>
        requires { p < length self.old.labels.items }
        ensures { OnOk result (found_of self.new ≡ labelled part p (found_of self.old)) }
    {
        if self.labels[p as usize] == 0 {
            self.labels[p as usize] = part;
            self.pending.push(p)?;
        }
        Ok(())
    }

    // All positions of a list that have no number get this one, and wait.
    fn label_all(&mut self, part: u32, list: &[u32]) -> Result<(), OutOfMemory>
        requires { All (λ p. p < length self.old.labels.items) list.now }
        ensures { OnOk result (found_of self.new ≡ all_labelled part list.now (found_of self.old)) }
    {
        for p in list {
            self.label(part, *p)?;
        }
        Ok(())
    }

    // A variable that was not passed is passed: all positions that mention it get the number.
    fn pass_variable(
        &mut self,
        part: u32,
        lists: &OccurrenceLists,
        v: u32,
    ) -> Result<(), OutOfMemory>
        requires list { 2 * v + 1 < length lists.now }
        requires owner { v < length self.old.owners.items }
        requires within { All (λ p. p < length self.old.labels.items) (positions_of_variable lists.now v) }
        ensures { OnOk result (found_of self.new ≡ variable_passed part lists.now v (found_of self.old)) }
    {
        if self.owners[v as usize] == 0 {
            self.label_all(part, lists.positions_of_variable(v))?;
            self.owners[v as usize] = part;
        }
        Ok(())
    }

    // All variables of a clause are passed.
    fn pass_clause(
        &mut self,
        part: u32,
        lists: &OccurrenceLists,
        lits: &[Lit],
    ) -> Result<(), OutOfMemory>
        requires owners { IsTrue (list_all (λ l. nat_lt (variable l) (length self.old.owners.items)) lits.now) }
        requires lists { length lists.now ≡ 2 * length self.old.owners.items }
        requires within { (v : ℕ) → All (λ p. p < length self.old.labels.items) (positions_of_variable lists.now v) }
        ensures { OnOk result (found_of self.new ≡ clause_passed part lists.now lits.now (found_of self.old)) }
    {
        for l in lits {
            self.pass_variable(part, lists, l.var())?;
        }
        Ok(())
    }

    // A part begins with a position that has no number, which waits.
    fn begin(&mut self, p: u32) -> Result<(), OutOfMemory>
        requires place { p < length self.old.labels.items }
        requires few { length self.old.roots.items ≤ max_clauses }
        requires none { self.old.pending.items ≡ [] }
        ensures { OnOk result (found_of self.new ≡ part_begun p (found_of self.old)) }
    {
        self.roots.push(p)?;
        self.labels[p as usize] = self.roots.len() as u32;
        self.pending.push(p)?;
        Ok(())
    }

    // All positions to which chains lead from those that wait get the number of the last part.
    fn spread(&mut self, f: &Formula, lists: &OccurrenceLists) -> Result<(), OutOfMemory>
        requires lists { HavePositions f.now lists.now }
        requires some { 0 < length self.old.roots.items }
        requires few { length self.old.roots.items ≤ max_clauses + 1 }
        requires searching { IsSearching f.now (found_of self.old) self.old.pending.items }
        ensures { OnOk result (IsSpread f.now (found_of self.old) (found_of self.new)) }
    {
        let part = self.roots.len() as u32;
        'waiting: while let Some(p) = self.pending.pop() {
            self.pass_clause(part, lists, f.clause(p))?;
        }
        Ok(())
    }

    // All positions below this one have their numbers, and now it has one too.
    fn pass_position(
        &mut self,
        f: &Formula,
        lists: &OccurrenceLists,
        p: u32,
    ) -> Result<(), OutOfMemory>
        requires lists { HavePositions f.now lists.now }
        requires first { 0 < p }
        requires last { p ≤ length f.now.clauses }
        requires few { length f.now.clauses ≤ max_clauses }
        requires before { IsUpTo f.now (found_of self.old) p }
        ensures { OnOk result (IsUpTo f.now (found_of self.new) (p + 1)) }
    {
        if self.labels[p as usize] == 0 {
            self.begin(p)?;
            self.spread(f, lists)?;
        }
        Ok(())
    }
}

/// The numbers of the parts for all positions, and the least position of each part.
pub(crate) fn number_parts(
    alloc: Global,
    f: &Formula,
    lists: &OccurrenceLists,
) -> Result<Search, OutOfMemory>
    requires { AreOccurrences f.now lists.now }
    ensures labels { IfOk result (λ s. AreLabels f.now s.labels.items s.roots.items) }
    ensures few { IfOk result (λ s. length s.labels.items ≤ max_clauses + 1) }
{
    let mut search = Search::new(alloc, f)?;
    for p in 1..f.len() + 1 {
        search.pass_position(f, lists, p)?;
    }
    Ok(search)
}
