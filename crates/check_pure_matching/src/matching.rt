//! The checks of a matching document.
//!
//! Each line is put into tables once, and then each place is looked at once. So no line is searched for, and no clause
//! is gone through for each line that names it.
ghost use Rattle.std.specs.Prelude.{◌≡◌, ◌≤◌, ◌<◌, ◌-◌, ◌&&◌, ◌||◌, ◌==◌, ℕ, length, map, slice_index, IfOk, IsTrue};
ghost use Rattle.std.specs.List.{list_all};
ghost use Rattle.lk_model.specs.Lists.{rises_within};
ghost use Rattle.lk_model.specs.Formulas.Literal.{is_literal, variable};
ghost use Rattle.lk_model.specs.Formulas.Lean.{are_positions};
ghost use Rattle.lk_model.specs.Formulas.Crossed.{no_variable};
ghost use Rattle.lk_model.specs.Held.VariableSets.{is_in};
ghost use Rattle.lk_model.specs.Documents.Form.{are_own, are_rows};
ghost use Rattle.lk_model.specs.Checks.MatchingChecks.{bad_owner, bad_row};
ghost use Rattle.check_tables.specs.Occurring.{AreOccurring, NotesVariables};
ghost use Rattle.check_pure_matching.specs.Matching.{AreOwners, AreFirstOwners, AreRows, AreFirstRows, AreRankBounds};
ghost use Rattle.check_pure_matching.specs.Matching.{AreNamedThere, NotesNamed, has_own, has_escape, row_in};
ghost use Rattle.check_pure_matching.specs.Matching.{is_bad_row};

use check_places::{Owners, is_bad_owner, is_misranked, number_at};
use check_tables::{Workers, kept_flags};
use lk_model::{DoneDocument, Formula, Lit, MatchRow, OutOfMemory, Own, VarSet};
use lk_outside::Gate;
use partial_assign::assignment_of;
use std::alloc::Global;
use std::thread::Threads;

/// The first position, counted from 1, that is removed and has no own line, or is kept and has one, or
/// whose line has a variable on which no literal of the clause is true, or the variable of an earlier
/// line; or none. The error says that memory ran out.
pub fn bad_owner<R: Threads + Sync, G: Gate>(
    workers: &Workers<R, G>,
    alloc: Global,
    f: &Formula,
    d: &DoneDocument,
    own: &[Own],
) -> Result<Option<u32>, OutOfMemory>
    requires kept { IsTrue (are_positions f.now d.now.kept) }
    requires set { IsTrue (rises_within 0 f.now.vars (map variable d.now.set)) }
    requires own { IsTrue (are_own f.now.vars (length f.now.clauses) own.now) }
    ensures { IfOk result (λ place. place ≡ (bad_owner f.now d.now own.now).place) }
{
    let n = f.vars();
    let m = f.len();
    let values = assignment_of(alloc, n, d.set.as_slice())?;
    let flags = kept_flags(alloc, m, d.kept.as_slice())?;
    let owners = owners_of(alloc, n, m, own)?;
    let kept = flags.as_slice();
    workers.least_place(m, &|p| is_bad_owner(f, &values, kept, &owners, p))
}

/// The tables of the own lines over n variables and m positions.
fn owners_of(alloc: Global, n: u32, m: u32, own: &[Own]) -> Result<Owners, OutOfMemory>
    requires { IsTrue (are_own n m own.now) }
    ensures of_position { IfOk result (λ owners. AreOwners m own.now owners.of_position.items) }
    ensures first { IfOk result (λ owners. AreFirstOwners n m own.now owners.first.items) }
{
    let mut of_position = vec![in alloc; 0u32; m as usize]?;
    let mut first = vec![in alloc; m; n as usize]?;
    for i in (0..own.len()).rev() {
        let line = own[i];
        of_position[line.pos as usize - 1] = line.var;
        first[line.var as usize - 1] = line.pos;
    }
    Ok(Owners { of_position, first })
}

/// What the rows say: the row of each variable, the first variable whose row has each own position, the
/// last of all if none has it, and one more than the greatest rank of these rows, 0 if there is none.
#[derive(Drop)]
struct Rows {
    of_variable: Vec<Option<MatchRow>>,
    first: Vec<u32>,
    rank_bound: Vec<u64>,
}

/// Which variables the kept clauses hold, and which of them are in the clause at their row's own position,
/// or at its escape.
#[derive(Drop)]
struct Seen {
    occurring: VarSet,
    own: VarSet,
    escape: VarSet,
}

/// The first variable whose row is missing, or is not wanted since the variable does not occur in the kept
/// clauses, or names a position that is not kept or lacks the variable, or has an earlier row's own
/// position, or whose escape is the own position of a row with no lower rank; or none. The error says that
/// memory ran out.
pub fn bad_row<R: Threads + Sync, G: Gate>(
    workers: &Workers<R, G>,
    alloc: Global,
    f: &Formula,
    d: &DoneDocument,
    rows: &[MatchRow],
) -> Result<Option<u32>, OutOfMemory>
    requires kept { IsTrue (are_positions f.now d.now.kept) }
    requires rows { IsTrue (are_rows f.now.vars (length f.now.clauses) rows.now) }
    ensures { IfOk result (λ place. place ≡ (bad_row no_variable f.now d.now rows.now).place) }
{
    let n = f.vars();
    let m = f.len();
    let tables = row_tables(alloc, n, m, rows)?;
    let seen = seen_at(alloc, f, d.kept.as_slice(), tables.of_variable.as_slice())?;
    workers.least_place(n, &|v| is_bad_row(v, &tables, &seen))
}

/// The tables of the rows over n variables and m positions.
fn row_tables(alloc: Global, n: u32, m: u32, lines: &[MatchRow]) -> Result<Rows, OutOfMemory>
    requires { IsTrue (are_rows n m lines.now) }
    ensures of_variable { IfOk result (λ rows. AreRows n lines.now rows.of_variable.items) }
    ensures first { IfOk result (λ rows. AreFirstRows m n lines.now rows.first.items) }
    ensures rank_bound { IfOk result (λ rows. AreRankBounds m lines.now rows.rank_bound.items) }
{
    let mut of_variable = vec![in alloc; None; n as usize]?;
    let mut first = vec![in alloc; n; m as usize]?;
    let mut rank_bound = vec![in alloc; 0u64; m as usize]?;
    for i in (0..lines.len()).rev() {
        let line = lines[i];
        let own = line.own as usize - 1;
        of_variable[line.var as usize - 1] = Some(line);
        first[own] = line.var;
        rank_bound[own] = rank_bound[own].max(u64::from(line.rank) + 1);
    }
    Ok(Rows {
        of_variable,
        first,
        rank_bound,
    })
}

/// What the clauses at these positions hold.
fn seen_at(
    alloc: Global,
    f: &Formula,
    kept: &[u32],
    rows: &[Option<MatchRow>],
) -> Result<Seen, OutOfMemory>
    requires kept { IsTrue (are_positions f.now kept.now) }
    requires rows { length rows.now ≡ f.now.vars }
    ensures occurring { IfOk result (λ seen. AreOccurring f.now kept.now seen.occurring) }
    ensures own { IfOk result (λ seen. AreNamedThere f.now kept.now rows.now has_own seen.own) }
    ensures escape { IfOk result (λ seen. AreNamedThere f.now kept.now rows.now has_escape seen.escape) }
{
    let mut seen = Seen {
        occurring: VarSet::new(alloc, f.vars())?,
        own: VarSet::new(alloc, f.vars())?,
        escape: VarSet::new(alloc, f.vars())?,
    };
    for p in kept {
        seen.note(f.vars(), f.clause(*p), *p, rows);
    }
    Ok(seen)
}

impl Seen {
    /// Notes what the clause at a position holds.
    fn note(&mut self, n: u32, clause: &[Lit], position: u32, rows: &[Option<MatchRow>])
        requires clause { IsTrue (list_all (is_literal n) clause.now) }
        requires occurring { length self.old.occurring ≡ n }
        requires own { length self.old.own ≡ n }
        requires escape { length self.old.escape ≡ n }
        requires rows { length rows.now ≡ n }
        ensures occurring { NotesVariables n clause.now self.old.occurring self.new.occurring }
        ensures own { NotesNamed n clause.now position rows.now has_own self.old.own self.new.own }
        ensures escape { NotesNamed n clause.now position rows.now has_escape self.old.escape self.new.escape }
    {
        self.occurring.add_clause(clause);
        for l in clause {
            let v = l.var();
            add_where(has_own(rows, v, position), v, &mut self.own);
            add_where(has_escape(rows, v, position), v, &mut self.escape);
        }
    }
}

/// Puts a variable into a set where a test says so.
fn add_where(test: bool, v: u32, set: &mut VarSet)
    requires first { 0 < v }
    requires last { v ≤ length set.old }
    ensures size { length set.new ≡ length set.old }
    ensures added { (k : ℕ) → is_in set.new k ≡ (is_in set.old k || (test && v == k)) }
{
    if test {
        set.add(v);
    }
}

/// Whether the row of a variable has this own position.
fn has_own(rows: &[Option<MatchRow>], v: u32, position: u32) -> bool
    requires first { 0 < v }
    requires last { v ≤ length rows.now }
    ensures { result ≡ has_own (row_in rows.now v) position }
{
    match rows[v as usize - 1] {
        Some(row) => position == row.own,
        None => false,
    }
}

/// Whether the row of a variable has this escape.
fn has_escape(rows: &[Option<MatchRow>], v: u32, position: u32) -> bool
    requires first { 0 < v }
    requires last { v ≤ length rows.now }
    ensures { result ≡ has_escape (row_in rows.now v) position }
{
    match rows[v as usize - 1] {
        Some(row) => position == row.escape,
        None => false,
    }
}

/// Whether the row of a variable is missing, not wanted or bad.
fn is_bad_row(v: u32, rows: &Rows, seen: &Seen) -> bool
    requires first { 0 < v }
    requires rows { v ≤ length rows.now.of_variable.items }
    requires occurring { v ≤ length seen.now.occurring }
    requires own { v ≤ length seen.now.own }
    requires escape { v ≤ length seen.now.escape }
    ensures { result ≡ is_bad_row rows.now.of_variable.items rows.now.first.items rows.now.rank_bound.items seen.now.occurring seen.now.own seen.now.escape v }
{
    match rows.of_variable[v as usize - 1] {
        Some(row) => {
            !seen.occurring.has(v)
                || !seen.own.has(v)
                || !seen.escape.has(v)
                || number_at(&rows.first, row.own) < v
                || is_misranked(&rows.rank_bound, row.rank, row.escape)
        }
        None => seen.occurring.has(v),
    }
}
