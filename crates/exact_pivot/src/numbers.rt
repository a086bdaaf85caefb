//! The numbers of a row, of which those that are 0 take no memory.
ghost use Rattle.std.specs.Prelude.{◌≡◌, pos, neg_ℤ, map, cond, find, [], ◌<ℤ◌, int_lt, length, IsTrue, OnOk, OnErr};
ghost use Rattle.lk_model.specs.Limits.{is_in_range};
ghost use Rattle.lk_model.specs.Lists.{up_to, is_nonzero};
ghost use Rattle.lk_model.specs.Linear.Rows.{entry};
ghost use Rattle.lk_model.specs.Linear.Pivot.{cleared, made_to_clear};
ghost use Rattle.exact_rows.specs.Sparse.{AreEntries, EndsBy, IsEntry, entries_of};
ghost use Rattle.std.specs.List.{All};
ghost use Rattle.exact_pivot.specs.Columns.{column_within, first_column};

use exact_rows::{Entry, SparseRow, SparseStop, combine_sparse};
use std::alloc::Global;
use std::marker::Model;

/// Whole numbers within the range, one for each column.
#[derive(Drop)]
pub struct Numbers {
    row: SparseRow,
}

impl Model for Numbers {
    ghost use Rattle.std.specs.Prelude.{List, ℤ};

    ghost Value = { List ℤ };

    ghost view = { λ numbers. numbers.row };
}

impl Numbers {
    pub fn of(row: SparseRow) -> Numbers
        ensures { result ≡ row }
    {
        Numbers { row }
    }

    /// The entry in a column, counted from 1, or 0 past the end.
    pub fn entry(&self, k: u32) -> i128
        ensures value { result ≡ entry self.now k }
        ensures range { IsTrue (is_in_range result) }
    {
        self.row.entry(k.max(1))
    }

    /// The entries that are not 0, in the order of their columns.
    pub fn entries(&self) -> &[Entry]
        ensures value { result.now ≡ entries_of self.now }
        ensures kept { AreEntries (length self.now) result.now }
    {
        self.row.entries()
    }

    /// The first column up to the last one given in which the entry is negative.
    pub fn first_negative(&self, last: u32) -> Option<u32>
        ensures { result ≡ find (λ k. int_lt (entry self.now k) (pos 0)) (up_to last) }
    {
        within(first_negative(self.row.entries()), last)
    }

    /// The first column up to the last one given in which the entry is not 0.
    pub fn first_nonzero(&self, last: u32) -> Option<u32>
        ensures { result ≡ find (λ k. is_nonzero (entry self.now k)) (up_to last) }
    {
        within(first(self.row.entries()), last)
    }

    /// Multiplies by -1.
    pub fn negate(&mut self)
        ensures { self.new ≡ map neg_ℤ self.old }
    {
        self.row.negate();
    }

    /// Makes the entry in a column 0 by another row. After an error the row is as it was.
    pub fn clear(&mut self, alloc: Global, by: &Numbers, k: u32) -> Result<(), SparseStop>
        requires lengths { length self.old ≡ length by.now }
        requires positive { pos 0 <ℤ entry by.now k }
        ensures ends { EndsBy (made_to_clear by.now k self.old) result }
        ensures ok { OnOk result (self.new ≡ cleared by.now k self.old) }
        ensures err { OnErr result (self.new ≡ self.old) }
    {
        let here = self.entry(k);
        if here == 0 {
            return Ok(());
        }
        combine_sparse(alloc, &mut self.row, &by.row, by.entry(k), here)
    }

    /// Makes the entry in a column 0 by another row if that is wanted, and does nothing otherwise.
    pub fn clear_if(
        &mut self,
        wanted: bool,
        alloc: Global,
        by: &Numbers,
        k: u32,
    ) -> Result<(), SparseStop>
        requires lengths { length self.old ≡ length by.now }
        requires positive { pos 0 <ℤ entry by.now k }
        ensures ends { EndsBy (cond wanted (made_to_clear by.now k self.old) []) result }
        ensures ok { OnOk result (self.new ≡ cond wanted (cleared by.now k self.old) self.old) }
    {
        if wanted {
            self.clear(alloc, by, k)
        } else {
            Ok(())
        }
    }
}

// The column of the first entry that is negative.
fn first_negative(entries: &[Entry]) -> Option<usize>
    ensures { result ≡ first_column (λ x. int_lt x (pos 0)) entries.now }
{
    entries.iter().find(|e| e.value < 0).map(|e| e.column)
}

// The column of the first entry that is not 0: of the first entry.
fn first(entries: &[Entry]) -> Option<usize>
    requires { All IsEntry entries.now }
    ensures { result ≡ first_column is_nonzero entries.now }
{
    entries.first().map(|e| e.column)
}

// The column, if it is not behind the last one.
fn within(column: Option<usize>, last: u32) -> Option<u32>
    ensures { result ≡ column_within last column }
{
    match column {
        Some(k) => {
            if k <= last as usize {
                Some(k as u32)
            } else {
                None
            }
        }
        None => None,
    }
}
