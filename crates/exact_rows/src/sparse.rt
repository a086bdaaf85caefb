//! Rows that keep only the entries that are not 0.
ghost use Rattle.std.specs.Prelude.{◌≡◌, ℕ, ◌<◌, neg_ℤ, map, length, IsTrue, IfOk};
ghost use Rattle.std.specs.List.{All};
ghost use Rattle.lk_model.specs.Limits.{is_in_range};
ghost use Rattle.lk_model.specs.Linear.Rows.{entry};
ghost use Rattle.exact_rows.specs.Made.{AreInRange};
ghost use Rattle.exact_rows.specs.Sparse.{AreEntries, IsEntry, entries_of, value_in_column, row_of, negated};

use lk_model::{OutOfMemory, Wide};
use std::alloc::{AllocError, AllocFailed, Global};
use std::marker::Model;

/// A number of a row that is not 0.
#[derive(Clone, Copy, PartialEq, Eq)]
pub struct Entry {
    /// Its column, counted from 1.
    pub column: usize,
    /// The number.
    pub value: i128,
}

/// Why rows have no combination.
#[derive(Clone, Copy)]
pub enum SparseStop {
    /// The operands of the first result that lies outside ±(2^127 - 1).
    Wide(Wide),
    /// Memory ran out.
    OutOfMemory,
}

impl From<Wide> for SparseStop {
    ghost use Rattle.std.specs.Prelude.{◌≡◌};
    ghost use Rattle.exact_rows.specs.declared.sparse.SparseStop.TheVariants.{Wide};

    ghost from_gives = { λ w e. e ≡ Wide w };

    fn from(w: Wide) -> SparseStop {
        SparseStop::Wide(w)
    }
}

impl From<AllocError> for SparseStop {
    ghost use Rattle.std.specs.Prelude.{◌≡◌};
    ghost use Rattle.exact_rows.specs.declared.sparse.SparseStop.TheVariants.{OutOfMemory};

    ghost from_gives = { λ _ e. e ≡ OutOfMemory };

    fn from(_e: AllocError) -> SparseStop {
        SparseStop::OutOfMemory
    }
}

impl<T: Drop> From<AllocFailed<T>> for SparseStop {
    ghost use Rattle.std.specs.Prelude.{◌≡◌};
    ghost use Rattle.exact_rows.specs.declared.sparse.SparseStop.TheVariants.{OutOfMemory};

    ghost from_gives = { λ _ e. e ≡ OutOfMemory };

    fn from(_e: AllocFailed<T>) -> SparseStop {
        SparseStop::OutOfMemory
    }
}

/// A row of numbers within ±(2^127 - 1), one for each column. Only those that are not 0 are kept, in the order of their
/// columns.
#[derive(Drop)]
pub struct SparseRow {
    columns: usize,
    kept: Vec<Entry>,
}

impl Model for SparseRow {
    ghost use Rattle.std.specs.Prelude.{List, ℤ};
    ghost use Rattle.exact_rows.specs.Sparse.{AreEntries, row_of};

    ghost Value = { List ℤ };

    ghost view = { λ row. row_of row.columns row.kept.items };

    ghost invariant = { λ row. AreEntries row.columns row.kept.items };
}

impl SparseRow {
    /// The row with these numbers.
    pub fn of(alloc: Global, row: &[i128]) -> Result<SparseRow, OutOfMemory>
        requires { AreInRange row.now }
        ensures { IfOk result (λ r. r ≡ row.now) }
    {
        Ok(SparseRow::with_entries(row.len(), entries_of(alloc, row)?))
    }

    /// The row of this many columns with these entries, whose columns rise. No number is 0.
    pub fn with_entries(columns: usize, entries: Vec<Entry>) -> SparseRow
        requires { AreEntries columns entries.items }
        ensures { result ≡ row_of columns entries.items }
    {
        SparseRow {
            columns,
            kept: entries,
        }
    }

    /// How many columns it has.
    pub fn columns(&self) -> usize
        ensures { result ≡ length self.now }
    {
        self.columns
    }

    /// Its entries that are not 0, in the order of their columns.
    pub fn entries(&self) -> &[Entry]
        ensures value { result.now ≡ entries_of self.now }
        ensures kept { AreEntries (length self.now) result.now }
    {
        self.kept.as_slice()
    }

    /// The number in a column, counted from 1, or 0 past the last. It takes no memory.
    pub fn entry(&self, k: u32) -> i128
        requires { 0 < k }
        ensures value { result ≡ entry self.now k }
        ensures range { IsTrue (is_in_range result) }
    {
        value_in_column(self.kept.as_slice(), k as usize)
    }

    /// Multiplies by -1. It takes no memory.
    pub fn negate(&mut self)
        ensures { self.new ≡ map neg_ℤ self.old }
    {
        negate(&mut self.kept);
    }
}

fn entries_of(alloc: Global, row: &[i128]) -> Result<Vec<Entry>, AllocError>
    requires { AreInRange row.now }
    ensures { IfOk result (λ es. es.items ≡ entries_of row.now) }
{
    (1..row.len() + 1)
        .zip(row)
        .filter(|(_, x)| **x != 0)
        .map(|(column, x)| Entry { column, value: *x })
        .collect(alloc)
}

fn negate(entries: &mut [Entry])
    requires { All IsEntry entries.old }
    ensures { entries.new ≡ map negated entries.old }
{
    for e in entries.iter_mut() {
        e.value = negative(e.value);
    }
}

fn negative(x: i128) -> i128
    requires { IsTrue (is_in_range x) }
    ensures { result ≡ neg_ℤ x }
{
    -x
}

// The number in a column, by binary search.
fn value_in_column(entries: &[Entry], column: usize) -> i128
    requires { (n : ℕ) × AreEntries n entries.now }
    ensures value { result ≡ value_in_column entries.now column }
    ensures range { IsTrue (is_in_range result) }
{
    match entries.binary_search_by_key(&column, |e| e.column) {
        Ok(at) => entries[at].value,
        Err(_) => 0,
    }
}
