//! The check of the units of a linear document.
//!
//! One table of numbers serves all units of a range: it is filled at the variables of a unit's shares. Then the list of
//! each such variable is summed and taken away in the same turn, so it is summed once, however many shares have the
//! variable. So a unit takes the time of its shares' literals.
ghost use Rattle.std.specs.Prelude.{◌≡◌, ◌≤◌, ◌<◌, ◌+◌, ◌^◌, ◌||◌, not, neg_ℤ, find, length, map, IfOk, OnOk, IsTrue};
ghost use Rattle.std.specs.List.{list_all, list_any};
ghost use Rattle.lk_model.specs.Lists.{is_zero, rises_within};
ghost use Rattle.lk_model.specs.Limits.{is_in_range};
ghost use Rattle.lk_model.specs.Formulas.Literal.{is_literal};
ghost use Rattle.lk_model.specs.Formulas.Formula.{is_formula};
ghost use Rattle.lk_model.specs.Formulas.Lean.{are_positions};
ghost use Rattle.lk_model.specs.Formulas.Crossed.{no_variable};
ghost use Rattle.lk_model.specs.Documents.Form.{is_linear_unit, is_weight};
ghost use Rattle.lk_model.specs.Checks.LinearChecks.{bad_unit};
ghost use Rattle.lk_model.specs.declared.document.Share.{Share};
ghost use Rattle.lk_model.specs.declared.document.Unit.{Unit};
ghost use Rattle.check_tables.specs.Flags.{is_flagged};
ghost use Rattle.check_tables.specs.Places.{places_in};
ghost use Rattle.check_linear.specs.Linear.{AreUnitPlaces, unit_numbered, is_bad_unit, AreNone, AreNumbers};
ghost use Rattle.check_linear.specs.Linear.{ClearsNumbers, ClearsShares, numbers_by, is_unbalanced_clause};
ghost use Rattle.check_linear.specs.Linear.{is_unbalanced_share, is_bad_unit_line};

use crate::linear::{add_numbers, is_unbalanced, no_numbers};
use crate::number_list::Numbers;
use check_places::is_amiss;
use check_tables::{Span, Workers, kept_flags, occurring_at};
use lk_model::{DoneDocument, Formula, Lit, OutOfMemory, Share, Unit, VarSet};
use lk_outside::Gate;
use std::alloc::Global;
use std::mem::size_of;
use std::thread::Threads;

/// What the units are checked by.
#[derive(Drop)]
struct UnitTables {
    /// Which positions are kept.
    kept: Vec<bool>,
    /// The variables of the kept clauses.
    occurring: VarSet,
    /// For each variable the number of its unit, counted from 1, or 0.
    numbers: Vec<usize>,
}

/// The first variable whose unit is missing, or is not wanted since the variable does not occur in the kept
/// clauses, or has d 0, or names a position that is not kept, or whose balance is not d in the variable, or
/// not 0 in another variable of the kept clauses; or none. The error says that memory ran out.
pub fn bad_unit<R: Threads + Sync, G: Gate>(
    workers: &Workers<R, G>,
    alloc: Global,
    f: &Formula,
    d: &DoneDocument,
    units: &[Unit],
) -> Result<Option<u32>, OutOfMemory>
    requires kept { IsTrue (are_positions f.now d.now.kept) }
    requires rising { IsTrue (rises_within 0 f.now.vars (map (λ (u : Unit). u.var) units.now)) }
    requires units { IsTrue (list_all (is_linear_unit (length f.now.clauses)) units.now) }
    ensures { IfOk result (λ place. place ≡ (bad_unit no_variable f.now d.now units.now).place) }
{
    let n = f.vars();
    let kept = d.kept.as_slice();
    let tables = UnitTables {
        kept: kept_flags(alloc, f.len(), kept)?,
        occurring: occurring_at(alloc, f, kept)?,
        numbers: unit_places(alloc, n, units)?,
    };
    let items = share_count(units).saturating_add(units.len());
    let bytes = n as usize * size_of::<Numbers>();
    workers
        .for_work(items, bytes)
        .least_found(n, &|span| bad_unit_in(alloc, f, &tables, units, span))
}

/// How many shares units have together, or the greatest number.
fn share_count(units: &[Unit]) -> usize {
    let mut count: usize = 0;
    for unit in units {
        count = count.saturating_add(unit.shares.len());
    }
    count
}

/// The first such variable in a range.
fn bad_unit_in(
    alloc: Global,
    f: &Formula,
    tables: &UnitTables,
    units: &[Unit],
    span: Span,
) -> Result<Option<u32>, OutOfMemory>
    requires occurring { length tables.now.occurring ≡ f.now.vars }
    requires numbers { AreUnitPlaces f.now.vars units.now tables.now.numbers.items }
    requires rising { IsTrue (rises_within 0 f.now.vars (map (λ (u : Unit). u.var) units.now)) }
    requires units { IsTrue (list_all (is_linear_unit (length f.now.clauses)) units.now) }
    requires first { 0 < span.first }
    requires within { span.first + span.count ≤ f.now.vars + 1 }
    requires few { span.first + span.count < 2 ^ 32 }
    ensures { IfOk result
        (λ place. place ≡ find
        (is_bad_unit f.now tables.now.kept.items tables.now.occurring units.now tables.now.numbers.items)
        (places_in span)) }
{
    let mut numbers = no_numbers(alloc, f.vars())?;
    for v in span.first..span.first + span.count {
        if is_bad_unit(f, tables, units, v, &mut numbers)? {
            return Ok(Some(v));
        }
    }
    Ok(None)
}

/// Whether the unit of a variable is missing, not wanted or bad. The table of numbers is empty before and
/// behind.
fn is_bad_unit(
    f: &Formula,
    tables: &UnitTables,
    units: &[Unit],
    v: u32,
    numbers: &mut Vec<Numbers>,
) -> Result<bool, OutOfMemory>
    requires occurring { length tables.now.occurring ≡ f.now.vars }
    requires numbers { AreUnitPlaces f.now.vars units.now tables.now.numbers.items }
    requires rising { IsTrue (rises_within 0 f.now.vars (map (λ (u : Unit). u.var) units.now)) }
    requires units { IsTrue (list_all (is_linear_unit (length f.now.clauses)) units.now) }
    requires first { 0 < v }
    requires last { v ≤ f.now.vars }
    requires none { AreNone f.now.vars numbers.old.items }
    ensures bad { IfOk result
        (λ bad. bad ≡ is_bad_unit f.now tables.now.kept.items tables.now.occurring units.now tables.now.numbers.items v) }
    ensures none { OnOk result (AreNone f.now.vars numbers.new.items) }
{
    let k = tables.numbers[v as usize - 1];
    if is_amiss(tables.occurring.has(v), k != 0) {
        return Ok(true);
    }
    if k == 0 {
        return Ok(false);
    }
    let unit = unit_numbered(units, k);
    is_bad_line(f, tables.kept.as_slice(), &tables.occurring, unit, numbers)
}

/// The unit of a number.
fn unit_numbered(units: &[Unit], k: usize) -> &Unit
    requires first { 0 < k }
    requires last { k ≤ length units.now }
    ensures { result.now ≡ unit_numbered units.now k }
{
    &units[k - 1]
}

/// For each variable up to n the number of its unit, counted from 1, or 0.
fn unit_places(alloc: Global, n: u32, units: &[Unit]) -> Result<Vec<usize>, OutOfMemory>
    requires { IsTrue (rises_within 0 n (map (λ (u : Unit). u.var) units.now)) }
    ensures { IfOk result (λ table. AreUnitPlaces n units.now table.items) }
{
    let mut table = vec![in alloc; 0usize; n as usize]?;
    for i in (0..units.len()).rev() {
        let unit = &units[i];
        table[unit.var as usize - 1] = i + 1;
    }
    Ok(table)
}

/// Whether a unit is bad. The table of numbers is empty before and behind.
fn is_bad_line(
    f: &Formula,
    kept: &[bool],
    occurring: &VarSet,
    unit: &Unit,
    numbers: &mut Vec<Numbers>,
) -> Result<bool, OutOfMemory>
    requires first { 0 < unit.now.var }
    requires last { unit.now.var ≤ f.now.vars }
    requires unit { IsTrue (is_linear_unit (length f.now.clauses) unit.now) }
    requires occurring { length occurring.now ≡ f.now.vars }
    requires none { AreNone f.now.vars numbers.old.items }
    ensures bad { IfOk result (λ bad. bad ≡ is_bad_unit_line f.now kept.now occurring.now unit.now) }
    ensures none { OnOk result (AreNone f.now.vars numbers.new.items) }
{
    if is_void(kept, unit) {
        return Ok(true);
    }
    let v = unit.var as usize - 1;
    fill(f, unit.shares.as_slice(), numbers)?;
    numbers[v].push(opposite(unit.d))?;
    let mut unbalanced = is_unbalanced(occurring, numbers, unit.var);
    unbalanced |= clear_shares(f, occurring, unit.shares.as_slice(), numbers);
    numbers[v].clear();
    Ok(unbalanced)
}

/// The number with the other sign.
fn opposite(y: i128) -> i128
    requires { IsTrue (is_in_range y) }
    ensures { result ≡ neg_ℤ y }
{
    -y
}

/// Whether d is 0, or a share is of a clause that is not kept.
fn is_void(kept: &[bool], unit: &Unit) -> bool
    ensures { result ≡
        (is_zero unit.now.d || list_any (λ (s : Share). not (is_flagged kept.now s.pos)) unit.now.shares) }
{
    unit.d == 0 || names_removed(kept, unit.shares.as_slice())
}

/// Whether a share is of a clause that is not kept.
fn names_removed(kept: &[bool], shares: &[Share]) -> bool
    ensures { result ≡ list_any (λ (s : Share). not (is_flagged kept.now s.pos)) shares.now }
{
    shares.iter().any(|s| !is_flagged(kept, s.pos))
}

/// The flag of a position.
fn is_flagged(kept: &[bool], p: u32) -> bool
    ensures { result ≡ is_flagged kept.now p }
{
    match kept.get((p as usize).saturating_sub(1)) {
        Some(flag) => *flag,
        None => false,
    }
}

/// Gives each variable its numbers by shares.
fn fill(f: &Formula, shares: &[Share], numbers: &mut Vec<Numbers>) -> Result<(), OutOfMemory>
    requires rising { IsTrue (rises_within 0 (length f.now.clauses) (map (λ (s : Share). s.pos) shares.now)) }
    requires weights { IsTrue (list_all (λ (s : Share). is_weight s.z) shares.now) }
    requires none { AreNone f.now.vars numbers.old.items }
    ensures filled { OnOk result (AreNumbers f.now (numbers_by shares.now) numbers.new.items) }
    ensures formula { IsTrue (is_formula f.now) }
{
    let n = f.vars();
    for i in 0..shares.len() {
        let share = shares[i];
        add_numbers(numbers, n, f.clause(share.pos), share.z)?;
    }
    Ok(())
}

/// Whether a variable of a share's clause is out of balance. The numbers of these variables are taken away.
fn clear_shares(
    f: &Formula,
    occurring: &VarSet,
    shares: &[Share],
    numbers: &mut Vec<Numbers>,
) -> bool
    requires rising { IsTrue (rises_within 0 (length f.now.clauses) (map (λ (s : Share). s.pos) shares.now)) }
    requires occurring { length occurring.now ≡ f.now.vars }
    requires size { length numbers.old.items ≡ f.now.vars }
    ensures unbalanced { result ≡ is_unbalanced_share f.now occurring.now numbers.old.items shares.now }
    ensures cleared { ClearsShares f.now shares.now numbers.old.items numbers.new.items }
{
    let mut unbalanced = false;
    for i in 0..shares.len() {
        unbalanced |= clear_clause(f.vars(), occurring, f.clause(shares[i].pos), numbers);
    }
    unbalanced
}

/// Whether a variable of a clause is out of balance. The numbers of these variables are taken away, each list as soon
/// as it is summed, so that a variable that stands in many clauses is summed once.
fn clear_clause(n: u32, occurring: &VarSet, clause: &[Lit], numbers: &mut Vec<Numbers>) -> bool
    requires clause { IsTrue (list_all (is_literal n) clause.now) }
    requires occurring { length occurring.now ≡ n }
    requires size { length numbers.old.items ≡ n }
    ensures unbalanced { result ≡ is_unbalanced_clause occurring.now numbers.old.items clause.now }
    ensures cleared { ClearsNumbers n clause.now numbers.old.items numbers.new.items }
{
    let mut unbalanced = false;
    for l in clause {
        unbalanced |= is_unbalanced(occurring, numbers, l.var());
        numbers[l.var() as usize - 1].clear();
    }
    unbalanced
}
