//! Work on the items of a list, in halves on threads.
ghost use Rattle.std.specs.Prelude.{◌≡◌, ◌+◌, ◌^◌, ◌<◌, ◌≤◌, ◌++◌, length, IfOk};
ghost use denote.Param.Send.{IsSync, IsSend};
ghost use Rattle.par_halves.specs.Answering.{AcceptsItems, AcceptsFrom, GivesItems, GivesFrom};

use lk_model::{List, OutOfMemory};
use lk_outside::Gate;
use std::alloc::Global;
use std::marker::{Send, Sync};
use std::thread::{Threads, join};

/// For each index and item what f may return on it, in their order. The clauses name no gate and no number
/// of workers.
pub fn map_halves<
    R: Threads + Sync,
    T: Sync,
    U: Send + Drop,
    G: Gate,
    F: Fn(usize, &T) -> U + Sync,
>(rt: &R, alloc: Global, gate: &G, items: &[T], workers: u32, f: &F) -> Result<List<U>, OutOfMemory>
    requires accepts { AcceptsItems F.Fn f.now items.now }
    requires workers { 1 ≤ workers }
    ensures len { IfOk result (λ us. length us ≡ length items.now) }
    ensures each { IfOk result (λ us. GivesItems F.Fn f.now items.now us) }
{
    Ok(List::from_vec(in_halves(rt, alloc, Some(gate), 0, items, workers, f)?))
}

// As `map_halves`, for items that stand from an index on. With two workers or more and two items or more the items
// are halved, and so are the workers. Where there is a gate, the left half enters it as 0 and the right half
// as 1, each before its first item; further splits have none.
#[cycle(halves)]
fn in_halves<R: Threads + Sync, T: Sync, U: Send + Drop, G: Gate, F: Fn(usize, &T) -> U + Sync>(
    rt: &R,
    alloc: Global,
    gate: Option<&G>,
    from: usize,
    items: &[T],
    workers: u32,
    f: &F,
) -> Result<Vec<U>, OutOfMemory>
    requires accepts { AcceptsFrom F.Fn f.now from items.now }
    requires workers { 1 ≤ workers }
    requires room { from + length items.now < 2 ^ 64 }
    ensures { IfOk result (λ v. GivesFrom F.Fn f.now from items.now v.items) }
{
    if workers < 2 || items.len() < 2 {
        return in_turn(alloc, from, items, f);
    }
    let half = items.len() / 2;
    let middle = from + half;
    let (left, right) = items.split_at(half);
    let few = workers / 2;
    let more = workers - few;
    let front = move || -> Result<Vec<U>, OutOfMemory>
        requires { IsSync R.row × IsSync T.row × IsSend U.row × IsSync G.row × IsSync F.row × (1 ≤ few)
            × (from + length left.now < 2 ^ 64) × AcceptsFrom F.Fn f.now from left.now }
        ensures { IfOk result (λ v. GivesFrom F.Fn f.entry.now from left.entry.now v.items) }
    {
        enter_gate(gate, 0);
        in_halves::<R, T, U, G, F>(rt, alloc, None, from, left, few, f)
    };
    let back = move || -> Result<Vec<U>, OutOfMemory>
        requires { IsSync R.row × IsSync T.row × IsSend U.row × IsSync G.row × IsSync F.row × (1 ≤ more)
            × (middle + length right.now < 2 ^ 64) × AcceptsFrom F.Fn f.now middle right.now }
        ensures { IfOk result (λ v. GivesFrom F.Fn f.entry.now middle right.entry.now v.items) }
    {
        enter_gate(gate, 1);
        in_halves::<R, T, U, G, F>(rt, alloc, None, middle, right, more, f)
    };
    let (on_left, on_right) = join(rt, front, back);
    let left_answers = on_left?;
    let right_answers = on_right?;
    appended(left_answers, right_answers)
}

// Tells a gate, if there is one, that a half starts.
fn enter_gate<G: Gate>(gate: Option<&G>, half: u32) {
    if let Some(gate) = gate {
        gate.enter(half);
    }
}

// What was returned on the left half, and then what was returned on the right one.
fn appended<U: Drop>(left: Vec<U>, right: Vec<U>) -> Result<Vec<U>, OutOfMemory>
    ensures { IfOk result (λ v. v.items ≡ left.items ++ right.items) }
{
    let mut all = left;
    let mut rest = right;
    all.append(&mut rest)?;
    Ok(all)
}

// One item after another.
fn in_turn<T, U: Drop, F: Fn(usize, &T) -> U>(
    alloc: Global,
    from: usize,
    items: &[T],
    f: &F,
) -> Result<Vec<U>, OutOfMemory>
    requires accepts { AcceptsFrom F.Fn f.now from items.now }
    requires room { from + length items.now < 2 ^ 64 }
    ensures { IfOk result (λ v. GivesFrom F.Fn f.now from items.now v.items) }
{
    let mut answers = Vec::new(alloc);
    for k in 0..items.len() {
        answers.push(f(from + k, &items[k]))?;
    }
    Ok(answers)
}
