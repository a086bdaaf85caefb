//! The stage that stands where the run can't go on.
//!
//! The other case of Farkas' lemma (`ends`): the weights of the variables that the rows show where no solution is
//! left. Their signs are a linear autarky of the clauses of the rows (Kullmann, "Investigations on Autark
//! Assignments", 2000).
//!
//! Here such weights may also come from a row of the second phase, all whose balances are 0, and a formula is reduced
//! by several stages one after another. An autarky is then given by the first of them that is not 0 on a variable.
ghost use Rattle.std.specs.Prelude.{◌≡◌, ◌+◌, ◌<◌, ◌^◌, pos, negsuc, ◌⊎◌, length, map, find, IsTrue, IfOk, OnOk};
ghost use Rattle.std.specs.List.{All, flat_map};
ghost use Rattle.std.specs.Result.{result_err};
ghost use Rattle.lk_model.specs.Lists.{up_to, is_nonzero};
ghost use Rattle.lk_model.specs.Limits.{is_in_range};
ghost use Rattle.lk_model.specs.Linear.Arithmetic.{first_wide, primitive};
ghost use Rattle.lk_model.specs.Linear.Rows.{TableauRows, entry, m_of};
ghost use Rattle.lk_model.specs.Linear.Phases.{stage_of, made_in_stage};
ghost use Rattle.exact_rows.specs.Made.{AreInRange};
ghost use Rattle.exact_pivot.specs.Moves.{Gives};
ghost use Rattle.exact_pivot.specs.Staged.{row_in, artificial_in, difference_at, made_in_difference, number_in_row};
ghost use Rattle.exact_pivot.specs.Staged.{signed_number, stage_numbers, made_in_numbers, lasts, weights_with};

use crate::ends::signed;
use crate::equation::Equation;
use crate::numbers::Numbers;
use crate::stop::PivotStop;
use exact_rows::{difference, primitive};
use lk_model::{List, Stage, Weight, Wide};
use std::alloc::{AllocError, Global};

/// The stage that stands: each variable's number in the cost row less the cost unit, in the first phase, or its
/// number in the row that can't be pivoted on, times its sign; without those that are 0, and over their gcd.
pub fn stage(
    alloc: Global,
    clause_count: u32,
    vars: &[u32],
    signs: &[i128],
    rows: &[Equation],
    cost: &Numbers,
) -> Result<Stage, PivotStop>
    requires size { clause_count + length vars.now + 2 < 2 ^ 32 }
    requires signs { length signs.now ≡ length vars.now }
    requires units { All (λ e. (e ≡ pos 1) ⊎ (e ≡ negsuc 0)) signs.now }
    ensures { (t : TableauRows) → m_of t ≡ clause_count → t.vars ≡ vars.now → t.signs ≡ signs.now → t.rows ≡ rows.now →
        t.cost ≡ cost.now → Gives (made_in_stage t) (stage_of t) result }
{
    let mut numbers = vec![in alloc; 0; signs.len()]?;
    write_numbers(&mut numbers, clause_count, signs, rows, cost)?;
    Ok(staged(alloc, vars, &mut numbers)?)
}

// Writes the variables' numbers, times their signs.
fn write_numbers(
    numbers: &mut [i128],
    clause_count: u32,
    signs: &[i128],
    rows: &[Equation],
    cost: &Numbers,
) -> Result<(), Wide>
    requires size { clause_count + length signs.now + 2 < 2 ^ 32 }
    requires lengths { length numbers.old ≡ length signs.now }
    requires units { All (λ e. (e ≡ pos 1) ⊎ (e ≡ negsuc 0)) signs.now }
    requires range { AreInRange numbers.old }
    ensures wide { result_err result ≡ first_wide
        (made_in_numbers (lasts clause_count (length signs.now) cost.now) clause_count (length signs.now) cost.now) }
    ensures value { OnOk result
        (numbers.new ≡ stage_numbers (lasts clause_count (length signs.now) cost.now) clause_count
        (length signs.now) signs.now rows.now cost.now) }
    ensures range { AreInRange numbers.new }
{
    if lasts(cost, clause_count + signs.len() as u32 + 2) {
        write_differences(numbers, clause_count, signs, cost)
    } else {
        let row = artificial_row(rows, clause_count, signs.len() as u32).unwrap_or(0);
        write_entries(numbers, clause_count, signs, rows, row);
        Ok(())
    }
}

// Whether the first phase lasts, by the right side of the cost row.
fn lasts(cost: &Numbers, right_column: u32) -> bool
    ensures { result ≡ is_nonzero (entry cost.now right_column) }
{
    cost.entry(right_column) != 0
}

fn write_differences(
    numbers: &mut [i128],
    clause_count: u32,
    signs: &[i128],
    cost: &Numbers,
) -> Result<(), Wide>
    requires size { clause_count + length signs.now + 2 < 2 ^ 32 }
    requires lengths { length numbers.old ≡ length signs.now }
    requires units { All (λ e. (e ≡ pos 1) ⊎ (e ≡ negsuc 0)) signs.now }
    requires range { AreInRange numbers.old }
    ensures wide { result_err result ≡ first_wide
        (flat_map (made_in_difference clause_count (length signs.now) cost.now) (up_to (length signs.now))) }
    ensures value { OnOk result
        (numbers.new ≡ map (signed_number signs.now (difference_at clause_count (length signs.now) cost.now))
        (up_to (length signs.now))) }
    ensures range { AreInRange numbers.new }
{
    let unit = cost.entry(clause_count + signs.len() as u32 + 1);
    for (j, sign) in signs.iter().enumerate() {
        let x = difference(cost.entry(clause_count + j as u32 + 1), unit)?;
        numbers[j] = signed(*sign, x);
    }
    Ok(())
}

fn write_entries(
    numbers: &mut [i128],
    clause_count: u32,
    signs: &[i128],
    rows: &[Equation],
    row: u32,
)
    requires size { clause_count + length signs.now + 2 < 2 ^ 32 }
    requires lengths { length numbers.old ≡ length signs.now }
    requires units { All (λ e. (e ≡ pos 1) ⊎ (e ≡ negsuc 0)) signs.now }
    requires range { AreInRange numbers.old }
    ensures value { numbers.new ≡ map (signed_number signs.now (number_in_row clause_count rows.now row))
        (up_to (length signs.now)) }
    ensures range { AreInRange numbers.new }
{
    for (j, sign) in signs.iter().enumerate() {
        let x = entry_of(rows, row, clause_count + j as u32 + 1);
        numbers[j] = signed(*sign, x);
    }
}

/// The first row whose basic column is artificial, from 1 on.
pub fn artificial_row(rows: &[Equation], clause_count: u32, row_count: u32) -> Option<u32>
    requires { row_count + 1 < 2 ^ 32 }
    ensures { result ≡ artificial_in clause_count row_count rows.now }
{
    (1..row_count + 1).find(|i| basic_of(rows, *i) > clause_count)
}

/// The basic column of a row, or 0 past the end.
pub fn basic_of(rows: &[Equation], i: u32) -> u32
    ensures { result ≡ (row_in rows.now i).basic }
{
    match rows.get((i as usize).saturating_sub(1)) {
        Some(row) => row.basic(),
        None => 0,
    }
}

/// The entry of a row in a column, or 0 past the end.
pub fn entry_of(rows: &[Equation], i: u32, k: u32) -> i128
    ensures value { result ≡ entry (row_in rows.now i).entries k }
    ensures range { IsTrue (is_in_range result) }
{
    match rows.get((i as usize).saturating_sub(1)) {
        Some(row) => row.entry(k),
        None => 0,
    }
}

/// The first column up to the last one given in which the entry of a row is not 0.
pub fn first_nonzero_of(rows: &[Equation], i: u32, last: u32) -> Option<u32>
    ensures { result ≡ find (λ k. is_nonzero (entry (row_in rows.now i).entries k)) (up_to last) }
{
    match rows.get((i as usize).saturating_sub(1)) {
        Some(row) => row.entries().first_nonzero(last),
        None => None,
    }
}

// The stage with these numbers over their gcd, to which they are changed.
fn staged(alloc: Global, vars: &[u32], numbers: &mut [i128]) -> Result<Stage, AllocError>
    requires { AreInRange numbers.old }
    ensures { IfOk result (λ stage. stage ≡ record { weights = weights_with vars.now (primitive numbers.old) }) }
{
    primitive(numbers);
    let weights = weights(alloc, vars, numbers)?;
    Ok(Stage {
        weights: List::from_vec(weights),
    })
}

fn weights(alloc: Global, vars: &[u32], numbers: &[i128]) -> Result<Vec<Weight>, AllocError>
    ensures { IfOk result (λ weights. weights.items ≡ weights_with vars.now numbers.now) }
{
    vars.iter()
        .zip(numbers)
        .map(|(var, x)| Weight { var: *var, x: *x })
        .filter(|weight| weight.x != 0)
        .collect(alloc)
}
