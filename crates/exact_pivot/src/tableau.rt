//! The rows of the linear run at one moment.
//!
//! The first phase of the simplex method for numbers of the clauses that are at least 1 and whose balance is 0 in each
//! variable. The least column enters, and of equal quotients the row with the least basic column leaves (Bland, "New
//! Finite Pivoting Rules for the Simplex Method", 1977).
//!
//! Here all numbers are whole: a row is multiplied, not divided by the pivot, and then divided by its content. The
//! cost row has a column of its own for the factor by which it was multiplied, the cost unit. A result that does not
//! fit ends the call with its operands, and nothing is rounded.
ghost use Rattle.std.specs.Prelude.{◌≡◌, ℕ, pos, ◌+◌, ◌<◌, ◌≤◌, ◌≤ℤ◌, length, IsTrue, IfOk, OnOk};
ghost use Rattle.lk_model.specs.Lists.{rises_within};
ghost use Rattle.lk_model.specs.Linear.Rows.{TableauRows, start_of, entry, row_at, m_of, r_of, right_column};
ghost use Rattle.lk_model.specs.Linear.Pivot.{in_first_phase, pivoted, made_in_pivot};
ghost use Rattle.lk_model.specs.Linear.Ends.{dual_at_end, units_at_end, made_in_dual, made_in_units};
ghost use Rattle.lk_model.specs.Linear.Phases.{next, PivotOn, StageStands, EndsLean, stage_of, made_in_stage, entering};
ghost use Rattle.lk_model.specs.Linear.Phases.{may_leave, leaves_before, leaving, artificial_row, replacing};
ghost use Rattle.exact_pivot.specs.Moves.{move_of, Gives};
ghost use Rattle.exact_pivot.specs.AtPivots.{IsAtPivot};
ghost use Rattle.exact_pivot.specs.Shape.{IsTableau};
ghost use Rattle.exact_pivot.specs.Best.{IsBest, order_of_quotients};

use crate::ends::{duals, units};
use crate::equation::{Equation, clear_all};
use crate::numbers::Numbers;
use crate::stages::{artificial_row, basic_of, entry_of, first_nonzero_of, stage};
use crate::start::{start_cost, start_rows};
use crate::stop::{Next, PivotStop};
use exact_rows::compare_ratio;
use lk_model::{Dual, Formula, List, OutOfMemory, Stage, Unit};
use std::alloc::Global;
use std::cmp::Ordering;
use std::marker::Model;

/// The rows of the linear run at one moment: one for each variable that occurs, and the cost row. The run is the
/// first phase of the simplex method with the rule of Bland (1977), in whole numbers, and then takes artificial
/// columns out of the basis.
#[derive(Drop)]
pub struct Tableau {
    alloc: Global,
    positions: Vec<u32>,
    vars: Vec<u32>,
    signs: Vec<i128>,
    rows: Vec<Equation>,
    cost: Numbers,
}

impl Model for Tableau {
    ghost use Rattle.lk_model.specs.Linear.Rows.{TableauRows};

    ghost Value = { TableauRows };

    ghost use Rattle.exact_pivot.specs.Seen.{tableau_rows};
    ghost use Rattle.exact_pivot.specs.Shape.{IsTableau};

    ghost view = { tableau_rows };

    ghost invariant = { λ t. IsTableau (tableau_rows t) };
}

impl Tableau {
    /// The rows at the start, for the clauses at the positions, which ascend and count from 1.
    pub fn of(alloc: Global, f: &Formula, kept: &[u32]) -> Result<Tableau, OutOfMemory>
        requires { IsTrue (rises_within 0 (length f.now.clauses) kept.now) }
        ensures { IfOk result (λ t. t ≡ start_of f.now kept.now) }
    {
        let positions = kept.to_vec(alloc)?;
        let vars = f.occurring(alloc, kept)?.into_vec();
        let (signs, rows) = start_rows(alloc, f, kept, &vars)?;
        let cost = start_cost(alloc, kept.len() as u32, &rows)?;
        Ok(Tableau {
            alloc,
            positions,
            vars,
            signs,
            rows,
            cost,
        })
    }

    /// What the run does next.
    #[tactic(auto, unfolding(lk_model::specs::Linear::Phases::next))]
    pub fn next_pivot(&self) -> Next
        ensures { move_of result ≡ next self.now }
    {
        if self.is_in_first_phase() {
            match self.entering() {
                Some(col) => Next::Pivot {
                    row: self.leaving(col).unwrap_or(0),
                    col,
                },
                None => Next::Touch,
            }
        } else {
            match self.artificial_row() {
                Some(row) => match self.replacing(row) {
                    Some(col) => Next::Pivot { row, col },
                    None => Next::Touch,
                },
                None => Next::Lean,
            }
        }
    }

    fn clause_count(&self) -> u32
        ensures value { result ≡ m_of self.now }
        ensures shape { IsTableau self.now }
    {
        self.positions.len() as u32
    }

    fn row_count(&self) -> u32
        ensures value { result ≡ r_of self.now }
        ensures shape { IsTableau self.now }
    {
        self.vars.len() as u32
    }

    fn right_column(&self) -> u32
        ensures value { result ≡ right_column self.now }
        ensures shape { IsTableau self.now }
    {
        self.clause_count() + self.row_count() + 2
    }

    fn is_in_first_phase(&self) -> bool
        ensures { result ≡ in_first_phase self.now }
    {
        self.cost.entry(self.right_column()) != 0
    }

    // The entry of a row in a column, both counted from 1.
    fn entry(&self, i: u32, k: u32) -> i128
        ensures { result ≡ entry (row_at self.now i).entries k }
    {
        entry_of(&self.rows, i, k)
    }

    fn basic(&self, i: u32) -> u32
        ensures { result ≡ (row_at self.now i).basic }
    {
        basic_of(&self.rows, i)
    }

    // The least clause or artificial column with a negative entry in the cost row.
    fn entering(&self) -> Option<u32>
        ensures { result ≡ entering self.now }
    {
        self.cost
            .first_negative(self.clause_count() + self.row_count())
    }

    fn may_leave(&self, col: u32, i: u32) -> bool
        ensures { result ≡ may_leave self.now col i }
    {
        self.entry(i, col) > 0
    }

    // The right side of a row.
    fn right(&self, i: u32) -> i128
        requires { IsTrue (in_first_phase self.now) }
        ensures value { result ≡ entry (row_at self.now i).entries (right_column self.now) }
        ensures least { pos 0 ≤ℤ result }
    {
        self.entry(i, self.right_column())
    }

    // The order of the quotients of rows j and i.
    fn quotient_order(&self, col: u32, i: u32, j: u32) -> Ordering
        requires phase { IsTrue (in_first_phase self.now) }
        requires i { IsTrue (may_leave self.now col i) }
        requires j { IsTrue (may_leave self.now col j) }
        ensures { result ≡ order_of_quotients self.now col i j }
    {
        compare_ratio(
            self.right(j),
            self.entry(j, col),
            self.right(i),
            self.entry(i, col),
        )
    }

    // Whether row j leaves rather than row i.
    fn leaves_before(&self, col: u32, i: u32, j: u32) -> bool
        requires phase { IsTrue (in_first_phase self.now) }
        requires i { IsTrue (may_leave self.now col i) }
        requires j { IsTrue (may_leave self.now col j) }
        ensures { result ≡ leaves_before self.now col i j }
    {
        match self.quotient_order(col, i, j) {
            Ordering::Less => true,
            Ordering::Equal => self.basic(j) < self.basic(i),
            Ordering::Greater => false,
        }
    }

    // The row of the least quotient of right side by entry, and of equal quotients that of the least basic column.
    fn leaving(&self, col: u32) -> Option<u32>
        requires { IsTrue (in_first_phase self.now) }
        ensures { result ≡ leaving self.now col }
    {
        let mut best = None;
        for i in 1..self.row_count() + 1 {
            best = self.better(col, best, i);
        }
        best
    }

    // The best of the rows up to row i, from the best of those before it.
    fn better(&self, col: u32, best: Option<u32>, i: u32) -> Option<u32>
        requires shape { IsTableau self.now }
        requires phase { IsTrue (in_first_phase self.now) }
        requires best { IsBest self.now col i best }
        requires i { 0 < i }
        ensures { IsBest self.now col (i + 1) result }
    {
        if !self.may_leave(col, i) {
            return best;
        }
        match best {
            Some(b) => {
                if self.leaves_before(col, b, i) {
                    Some(i)
                } else {
                    Some(b)
                }
            }
            None => Some(i),
        }
    }

    // The first row whose basic column is artificial.
    fn artificial_row(&self) -> Option<u32>
        ensures { result ≡ artificial_row self.now }
    {
        artificial_row(&self.rows, self.clause_count(), self.row_count())
    }

    // The least clause column in which the row is not 0.
    fn replacing(&self, i: u32) -> Option<u32>
        ensures { result ≡ replacing self.now i }
    {
        first_nonzero_of(&self.rows, i, self.clause_count())
    }

    /// The rows after the pivot that comes next. After an error there are none.
    pub fn pivot(self, row: u32, col: u32) -> Result<Tableau, PivotStop>
        requires { next self ≡ PivotOn row col }
        ensures { Gives (made_in_pivot self row col) (pivoted self row col) result }
    {
        let first_phase = self.is_in_first_phase();
        let mut rows = self.rows;
        let mut cost = self.cost;
        pivot_rows(&mut rows, &mut cost, self.alloc, first_phase, row, col)?;
        Ok(Tableau {
            alloc: self.alloc,
            positions: self.positions,
            vars: self.vars,
            signs: self.signs,
            rows,
            cost,
        })
    }

    /// The stage that stands where the run can't go on.
    pub fn stage(&self) -> Result<Stage, PivotStop>
        requires { next self.now ≡ StageStands }
        ensures { Gives (made_in_stage self.now) (stage_of self.now) result }
    {
        stage(
            self.alloc,
            self.clause_count(),
            &self.vars,
            &self.signs,
            &self.rows,
            &self.cost,
        )
    }

    /// A dual for each clause, where the run ends lean.
    pub fn dual(&self) -> Result<List<Dual>, PivotStop>
        requires { next self.now ≡ EndsLean }
        ensures { Gives (made_in_dual self.now) (dual_at_end self.now) result }
    {
        duals(self.alloc, &self.positions, &self.rows, self.right_column())
    }

    /// A unit for each variable, where the run ends lean.
    pub fn units(&self) -> Result<List<Unit>, PivotStop>
        requires { next self.now ≡ EndsLean }
        ensures { Gives (made_in_units self.now) (units_at_end self.now) result }
    {
        units(
            self.alloc,
            &self.positions,
            &self.vars,
            &self.signs,
            &self.rows,
        )
    }
}

// Pivots the rows, and in the first phase the cost row.
fn pivot_rows(
    rows: &mut Vec<Equation>,
    cost: &mut Numbers,
    alloc: Global,
    first_phase: bool,
    row: u32,
    col: u32,
) -> Result<(), PivotStop>
    requires { (t : TableauRows) × IsAtPivot t row col rows.old.items cost.old first_phase }
    ensures made { (t : TableauRows) → IsAtPivot t row col rows.old.items cost.old first_phase →
        Gives (made_in_pivot t row col) tt result }
    ensures rows { (t : TableauRows) → IsAtPivot t row col rows.old.items cost.old first_phase
        → OnOk result (record t { rows = rows.new.items; cost = cost.new } ≡ pivoted t row col) }
{
    let mut by = rows.remove(row as usize - 1);
    by.enter(col);
    clear_all(alloc, rows, by.entries(), col)?;
    cost.clear_if(first_phase, alloc, by.entries(), col)?;
    rows.insert(row as usize - 1, by)?;
    Ok(())
}
