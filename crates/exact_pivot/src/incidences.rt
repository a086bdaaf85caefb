//! The entries of the variables' rows in the columns of the clauses.
//!
//! The literals of each clause are gone through once, in the order of the columns, and each adds 1 or -1 to the number
//! in its variable's row. So the entries of a row come in the order of their columns, and what is held is as much as
//! there are literals.
ghost use Rattle.std.specs.Prelude.{◌≡◌, ◌≢◌, ℕ, ℤ, List, [], ◌+ℤ◌, ◌<◌, pos, ◌⊎◌, length, IsTrue, IfOk, OnOk};
ghost use Rattle.std.specs.List.{All};
ghost use Rattle.lk_model.specs.Lists.{rises_within};
ghost use Rattle.lk_model.specs.Formulas.Literal.{is_clause};
ghost use Rattle.exact_rows.specs.declared.sparse.Entry.{Entry};
ghost use Rattle.exact_pivot.specs.Scattered.{with_number, last_column, unit_of, AreIncidences, AddsClause};

use exact_rows::Entry;
use lk_model::{Formula, Lit, OutOfMemory};
use std::alloc::Global;
use std::marker::Model;

/// Entries in the order of their columns, to which more come behind.
#[derive(Drop)]
pub struct Growing {
    entries: Vec<Entry>,
}

impl Model for Growing {
    ghost use Rattle.std.specs.Prelude.{List};
    ghost use Rattle.exact_rows.specs.declared.sparse.Entry.{Entry};

    ghost Value = { List Entry };

    ghost view = { λ row. row.entries.items };
}

impl Growing {
    fn new(alloc: Global) -> Growing
        ensures { result ≡ [] }
    {
        Growing {
            entries: Vec::new(alloc),
        }
    }

    /// The entries so far.
    pub fn as_slice(&self) -> &[Entry]
        ensures { result.now ≡ self.now }
    {
        self.entries.as_slice()
    }

    fn last_column(&self) -> usize
        ensures { result ≡ last_column self.now }
    {
        match self.entries.last() {
            Some(e) => e.column,
            None => 0,
        }
    }

    // Adds 1 or -1 to the number in the last column: it is 0 there, or becomes 0.
    fn add(&mut self, column: usize, value: i128) -> Result<(), OutOfMemory>
        requires nonzero { value ≢ pos 0 }
        ensures { (es : List Entry) (x : ℤ) → last_column es < column → (x ≡ pos 0) ⊎ (x +ℤ value ≡ pos 0) →
            self.old ≡ with_number es column x
            → OnOk result (self.new ≡ with_number es column (x +ℤ value)) }
    {
        if self.last_column() == column {
            self.entries.pop();
            return Ok(());
        }
        self.entries.push(Entry { column, value })?;
        Ok(())
    }
}

/// For each variable, at its number, its entries in the columns of the clauses at the positions.
pub fn incidences(alloc: Global, f: &Formula, kept: &[u32]) -> Result<Vec<Growing>, OutOfMemory>
    requires { IsTrue (rises_within 0 (length f.now.clauses) kept.now) }
    ensures { IfOk result (λ rows. AreIncidences f.now kept.now rows.items) }
{
    let mut rows = empty(alloc, f.vars() as usize + 1)?;
    for (i, p) in kept.iter().enumerate() {
        add_clause(f.vars(), &mut rows, f.clause(*p), i + 1)?;
    }
    Ok(rows)
}

// `count` rows without an entry.
fn empty(alloc: Global, count: usize) -> Result<Vec<Growing>, OutOfMemory>
    ensures size { IfOk result (λ rows. length rows.items ≡ count) }
    ensures value { IfOk result (λ rows. All (λ es. es ≡ []) rows.items) }
{
    let mut rows = Vec::with_capacity(alloc, count)?;
    for _ in 0..count {
        rows.push(Growing::new(alloc))?;
    }
    Ok(rows)
}

// Adds the entries of a clause, in a column behind all those before.
fn add_clause(
    vars: u32,
    rows: &mut [Growing],
    clause: &[Lit],
    column: usize,
) -> Result<(), OutOfMemory>
    requires wide { vars < length rows.old }
    requires clause { IsTrue (is_clause vars clause.now) }
    requires behind { All (λ es. last_column es < column) rows.old }
    ensures { OnOk result (AddsClause clause.now column rows.old rows.new) }
{
    for l in clause {
        rows[l.var() as usize].add(column, unit(*l))?;
    }
    Ok(())
}

// 1 for a variable, -1 for its complement.
fn unit(l: Lit) -> i128
    ensures { result ≡ unit_of l }
{
    if l.positive() { 1 } else { -1 }
}
