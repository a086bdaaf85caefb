//! The check of an order of pure literals.
ghost use Rattle.std.specs.Prelude.{◌≡◌, ◌≤◌, ◌<◌, ◌+◌, ◌*◌, ◌||◌, not, [], List, ℤ, length, nat_le, IfOk};
ghost use Rattle.std.specs.Prelude.{IsTrue};
ghost use Rattle.std.specs.List.{list_all};
ghost use Rattle.lk_model.specs.Formulas.Literal.{is_literal, contains, rank_of};
ghost use Rattle.lk_model.specs.Formulas.Formula.{clause_at};
ghost use Rattle.lk_model.specs.Checks.PureChecks.{bad_order};
ghost use Rattle.check_tables.specs.LiteralSets.{has_literal, IsSetOf};
ghost use Rattle.check_pure_matching.specs.Order.{broken_place, first_broken, IsSoundCount, ArePlaces};

use check_tables::{LiteralSet, Workers};
use lk_model::{DoneDocument, Formula, Lit, LitTable, OutOfMemory};
use lk_outside::Gate;
use std::alloc::Global;
use std::thread::Threads;

/// The first index in the order, counted from 1, at which it is bad: the literal stands earlier, or is
/// not in the set line, or a clause with its complement holds no earlier literal; or none. The index after
/// the last stands for a literal of the set line that is missing. The error says that memory ran out.
///
/// One pass over the clauses finds whether one breaks the order, by the places of its literals.
pub fn bad_order<R: Threads + Sync, G: Gate>(
    workers: &Workers<R, G>,
    alloc: Global,
    f: &Formula,
    d: &DoneDocument,
    order: &[Lit],
) -> Result<Option<usize>, OutOfMemory>
    requires set { IsTrue (list_all (is_literal f.now.vars) d.now.set) }
    requires order { IsTrue (list_all (is_literal f.now.vars) order.now) }
    ensures { IfOk result (λ place. place ≡ (bad_order f.now d.now order.now).place) }
{
    let set = d.set.as_slice();
    let sound = sound_count(alloc, f.vars(), set, order)?;
    let broken = broken_by_any(workers, alloc, f, &order[..sound])?;
    if broken <= sound {
        return Ok(Some(broken));
    }
    if sound < order.len() || !has_all(alloc, f.vars(), order, set)? {
        Ok(Some(sound + 1))
    } else {
        Ok(None)
    }
}

/// How many first literals of the order are each new and in the set line.
fn sound_count(alloc: Global, n: u32, set: &[Lit], order: &[Lit]) -> Result<usize, OutOfMemory>
    requires small { n ≤ 1000000 }
    requires set { IsTrue (list_all (is_literal n) set.now) }
    requires order { IsTrue (list_all (is_literal n) order.now) }
    ensures { IfOk result (IsSoundCount set.now order.now) }
{
    let set = LiteralSet::of(alloc, n, set)?;
    let mut earlier = LiteralSet::new(alloc, n)?;
    Ok(sound_front(n, &set, order, &mut earlier))
}

/// How many first literals of the order are each not among the earlier ones and in the set.
fn sound_front(n: u32, set: &LiteralSet, order: &[Lit], earlier: &mut LiteralSet) -> usize
    requires order { IsTrue (list_all (is_literal n) order.now) }
    requires set { length set.now ≡ 2 * n + 2 }
    requires none { IsSetOf n [] earlier.old }
    ensures { (literals : List ℤ) → IsSetOf n literals set.now → IsSoundCount literals order.now result }
{
    for i in 0..order.len() {
        let l = order[i];
        if is_unsound(set, earlier, l) {
            return i;
        }
        earlier.add(l);
    }
    order.len()
}

/// Whether a literal is among the earlier ones, or not in the set.
fn is_unsound(set: &LiteralSet, earlier: &LiteralSet, l: Lit) -> bool
    requires set { rank_of l < length set.now }
    requires earlier { rank_of l < length earlier.now }
    ensures { result ≡ (has_literal earlier.now l || not (has_literal set.now l)) }
{
    earlier.has(l) || !set.has(l)
}

/// Whether each literal of the set line stands in the order.
fn has_all(alloc: Global, n: u32, order: &[Lit], set: &[Lit]) -> Result<bool, OutOfMemory>
    requires small { n ≤ 1000000 }
    requires order { IsTrue (list_all (is_literal n) order.now) }
    requires set { IsTrue (list_all (is_literal n) set.now) }
    ensures { IfOk result (λ all. all ≡ list_all (contains order.now) set.now) }
{
    let literals = LiteralSet::of(alloc, n, order)?;
    Ok(literals.has_all(set))
}

/// The place of each literal in the order; the place after the last where it has none.
fn places_of(alloc: Global, n: u32, order: &[Lit]) -> Result<LitTable<usize>, OutOfMemory>
    requires small { n ≤ 1000000 }
    requires order { IsTrue (list_all (is_literal n) order.now) }
    ensures { IfOk result (λ places. ArePlaces n order.now places) }
{
    let mut places = LitTable::new(alloc, n, order.len() + 1)?;
    for i in (0..order.len()).rev() {
        places[order[i]] = i + 1;
    }
    Ok(places)
}

/// The least place at which a clause breaks the order, or the place after the last. The workers look for a
/// clause that breaks it, and where there is one, the clauses are gone through for the least place.
fn broken_by_any<R: Threads + Sync, G: Gate>(
    workers: &Workers<R, G>,
    alloc: Global,
    f: &Formula,
    order: &[Lit],
) -> Result<usize, OutOfMemory>
    requires order { IsTrue (list_all (is_literal f.now.vars) order.now) }
    ensures { IfOk result (λ place. place ≡ first_broken order.now f.now.clauses) }
{
    let places = places_of(alloc, f.vars(), order)?;
    match workers.least_place(f.len(), &|p| breaks(f, order, &places, p))? {
        Some(_) => Ok(first_broken(f, order, &places)),
        None => Ok(order.len() + 1),
    }
}

/// Whether the clause at a position breaks the order.
fn breaks(f: &Formula, order: &[Lit], places: &LitTable<usize>, p: u32) -> bool
    requires places { ArePlaces f.now.vars order.now places.now }
    requires first { 0 < p }
    requires last { p ≤ length f.now.clauses }
    ensures { result ≡ nat_le (broken_place order.now (clause_at f.now p)) (length order.now) }
{
    broken_place(f.vars(), f.clause(p), order, places) <= order.len()
}

/// The least place at which a clause breaks the order, or the place after the last.
fn first_broken(f: &Formula, order: &[Lit], places: &LitTable<usize>) -> usize
    requires { ArePlaces f.now.vars order.now places.now }
    ensures { result ≡ first_broken order.now f.now.clauses }
{
    let mut first = order.len() + 1;
    for i in 0..f.len() {
        first = first.min(broken_place(f.vars(), f.clause(i + 1), order, places));
    }
    first
}

/// The place at which a clause breaks the order: that of the first literal whose complement it holds,
/// where none of its own literals stands earlier; or else the place after the last.
fn broken_place(n: u32, clause: &[Lit], order: &[Lit], places: &LitTable<usize>) -> usize
    requires clause { IsTrue (list_all (is_literal n) clause.now) }
    requires places { ArePlaces n order.now places.now }
    ensures { result ≡ broken_place order.now clause.now }
{
    let mut with = order.len() + 1;
    let mut against = order.len() + 1;
    for l in clause {
        with = with.min(places[*l]);
        against = against.min(places[l.negated()]);
    }
    if against <= with {
        against
    } else {
        order.len() + 1
    }
}
