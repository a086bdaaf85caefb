//! The checks of a linear document.
ghost use Rattle.std.specs.Prelude.{◌≡◌, ◌≤◌, ◌<◌, ◌-◌, ◌+◌, ◌^◌, ◌++◌, ◌∷◌, ℕ, pos, [], find, length, map};
ghost use Rattle.std.specs.Prelude.{slice_index_or, IfOk, OnOk, IsTrue};
ghost use Rattle.std.specs.List.{list_all};
ghost use Rattle.lk_model.specs.Lists.{rises_within};
ghost use Rattle.lk_model.specs.Limits.{is_in_range};
ghost use Rattle.lk_model.specs.Formulas.Literal.{is_literal, variable};
ghost use Rattle.lk_model.specs.Formulas.Formula.{clause_at};
ghost use Rattle.lk_model.specs.Formulas.Lean.{are_positions};
ghost use Rattle.lk_model.specs.Formulas.Crossed.{no_variable};
ghost use Rattle.lk_model.specs.Documents.Documents.{duals_at};
ghost use Rattle.lk_model.specs.Documents.Form.{are_duals, is_stage, is_weight};
ghost use Rattle.lk_model.specs.Checks.LinearChecks.{bad_sign, bad_stage, bad_dual, bad_balance, is_same_value};
ghost use Rattle.lk_model.specs.declared.document.Weight.{Weight};
ghost use Rattle.exact_rows.specs.Made.{AreInRange};
ghost use Rattle.check_tables.specs.Places.{places_in};
ghost use Rattle.check_linear.specs.Linear.{is_bad_stage, least_stage, weights_at, AreFirsts, NotesStage, sign_of};
ghost use Rattle.check_linear.specs.Linear.{is_bad_sign, AreDuals, signed, AreNumbers, AddsNumbers};
ghost use Rattle.check_linear.specs.Linear.{is_unbalanced, numbers_of};

use crate::number_list::Numbers;
use check_places::{is_bad_dual, is_positive};
use check_tables::{Span, Workers, kept_flags, occurring_at};
use exact_rows::sign_of_sum;
use lk_model::{DoneDocument, Dual, Formula, Lit, OutOfMemory, Stage, VarSet, Weight};
use lk_outside::Gate;
use partial_assign::{Partial, assignment_of};
use std::alloc::Global;
use std::cmp::Ordering;
use std::thread::Threads;

/// The first position, counted from 1, that is kept and has no dual, or has one and is not kept, or one
/// below 1; or none. The error says that memory ran out.
pub fn bad_dual<R: Threads + Sync, G: Gate>(
    workers: &Workers<R, G>,
    alloc: Global,
    f: &Formula,
    d: &DoneDocument,
    dual: &[Dual],
) -> Result<Option<u32>, OutOfMemory>
    requires kept { IsTrue (are_positions f.now d.now.kept) }
    requires dual { IsTrue (are_duals (length f.now.clauses) dual.now) }
    ensures { IfOk result (λ place. place ≡ (bad_dual f.now d.now dual.now).place) }
{
    let m = f.len();
    let flags = kept_flags(alloc, m, d.kept.as_slice())?;
    let duals = duals_of(alloc, m, dual)?;
    let kept = flags.as_slice();
    let table = duals.as_slice();
    workers.least_place(m, &|p| is_bad_dual(kept, table, p))
}

/// For each position whether the number of its dual is at least 1, where it has one.
fn duals_of(alloc: Global, m: u32, dual: &[Dual]) -> Result<Vec<Option<bool>>, OutOfMemory>
    requires { IsTrue (are_duals m dual.now) }
    ensures { IfOk result (λ table. AreDuals m dual.now table.items) }
{
    let mut table = vec![in alloc; None; m as usize]?;
    for i in (0..dual.len()).rev() {
        let line = dual[i];
        table[line.pos as usize - 1] = Some(is_positive(line.y));
    }
    Ok(table)
}

/// The first variable of the kept clauses in which the balance of all duals is not 0, or none. The error
/// says that memory ran out.
pub fn bad_balance<R: Threads + Sync, G: Gate>(
    workers: &Workers<R, G>,
    alloc: Global,
    f: &Formula,
    d: &DoneDocument,
    dual: &[Dual],
) -> Result<Option<u32>, OutOfMemory>
    requires kept { IsTrue (are_positions f.now d.now.kept) }
    requires dual { IsTrue (are_duals (length f.now.clauses) dual.now) }
    ensures { IfOk result (λ place. place ≡ (bad_balance no_variable f.now d.now dual.now).place) }
{
    let n = f.vars();
    let occurring = occurring_at(alloc, f, d.kept.as_slice())?;
    let numbers = dual_numbers(alloc, f, dual)?;
    let table = numbers.as_slice();
    workers.least_place(n, &|v| is_unbalanced(&occurring, table, v))
}

/// For each variable the numbers of the duals at its literals, with the signs of these.
fn dual_numbers(alloc: Global, f: &Formula, dual: &[Dual]) -> Result<Vec<Numbers>, OutOfMemory>
    requires { IsTrue (are_duals (length f.now.clauses) dual.now) }
    ensures { IfOk result (λ table. AreNumbers f.now (duals_at dual.now) table.items) }
{
    let mut table = no_numbers(alloc, f.vars())?;
    for i in 0..dual.len() {
        let line = dual[i];
        add_numbers(&mut table, f.vars(), f.clause(line.pos), line.y)?;
    }
    Ok(table)
}

/// An empty list for each variable.
pub(crate) fn no_numbers(alloc: Global, n: u32) -> Result<Vec<Numbers>, OutOfMemory>
    ensures size { IfOk result (λ table. length table.items ≡ n) }
    ensures none { IfOk result (λ table. (v : ℕ) → numbers_of table.items v ≡ []) }
{
    let mut table = Vec::new(alloc);
    for _ in 0..n {
        table.push(Numbers::new(alloc))?;
    }
    Ok(table)
}

/// Appends a number of a clause to the list of each variable of the clause, with the sign of its literal.
pub(crate) fn add_numbers(
    table: &mut [Numbers],
    n: u32,
    clause: &[Lit],
    y: i128,
) -> Result<(), OutOfMemory>
    requires size { length table.old ≡ n }
    requires clause { IsTrue (list_all (is_literal n) clause.now) }
    requires range { IsTrue (is_in_range y) }
    ensures { OnOk result (AddsNumbers n y clause.now table.old table.new) }
{
    for l in clause {
        table[l.var() as usize - 1].push(signed(*l, y))?;
    }
    Ok(())
}

/// The number, with the sign of a literal.
fn signed(l: Lit, y: i128) -> i128
    requires { IsTrue (is_in_range y) }
    ensures { result ≡ signed l y }
{
    if l.positive() { y } else { -y }
}

/// Whether a variable occurs, and the sum of its numbers is not 0.
pub(crate) fn is_unbalanced(occurring: &VarSet, table: &[Numbers], v: u32) -> bool
    requires first { 0 < v }
    requires occurring { v ≤ length occurring.now }
    requires table { v ≤ length table.now }
    ensures { result ≡ is_unbalanced occurring.now table.now v }
{
    occurring.has(v) && table[v as usize - 1].has_sum()
}

/// For each variable the first stage that is not 0 on it, counted from 0, and the weight there; the number
/// of all stages, and 0, where all are 0.
#[derive(Drop)]
struct Firsts {
    places: Vec<usize>,
    weights: Vec<i128>,
}

/// The first variable that has not the sign of its first weight, or is set where it has none; or none.
/// The error says that memory ran out.
pub fn bad_sign<R: Threads + Sync, G: Gate>(
    workers: &Workers<R, G>,
    alloc: Global,
    f: &Formula,
    d: &DoneDocument,
    stages: &[Stage],
) -> Result<Option<u32>, OutOfMemory>
    requires set { IsTrue (rises_within 0 f.now.vars (map variable d.now.set)) }
    requires stages { IsTrue (list_all (is_stage f.now.vars) stages.now) }
    ensures { IfOk result (λ place. place ≡ (bad_sign f.now d.now stages.now).place) }
{
    let n = f.vars();
    let values = assignment_of(alloc, n, d.set.as_slice())?;
    let firsts = firsts_of(alloc, n, stages)?;
    let weights = firsts.weights.as_slice();
    workers.least_place(n, &|v| is_bad_sign(&values, weights, v))
}

/// The first weights of the variables up to n in stages.
fn firsts_of(alloc: Global, n: u32, stages: &[Stage]) -> Result<Firsts, OutOfMemory>
    requires { IsTrue (list_all (is_stage n) stages.now) }
    ensures firsts { IfOk result (λ firsts. AreFirsts n 0 stages.now firsts.places.items firsts.weights.items) }
    ensures range { IfOk result (λ firsts. AreInRange firsts.weights.items) }
{
    let mut firsts = Firsts {
        places: vec![in alloc; stages.len(); n as usize]?,
        weights: vec![in alloc; 0i128; n as usize]?,
    };
    for k in (0..stages.len()).rev() {
        firsts.note(n, k, stages[k].weights.as_slice());
    }
    Ok(firsts)
}

impl Firsts {
    /// Puts the weights of a stage before those of the later ones.
    fn note(&mut self, n: u32, k: usize, stage: &[Weight])
        requires places { length self.old.places.items ≡ n }
        requires weights { length self.old.weights.items ≡ n }
        requires rising { IsTrue (rises_within 0 n (map (λ (w : Weight). w.var) stage.now)) }
        requires nonzero { IsTrue (list_all (λ (w : Weight). is_weight w.x) stage.now) }
        requires range { AreInRange self.old.weights.items }
        ensures noted { NotesStage n k stage.now self.old.places.items self.old.weights.items self.new.places.items self.new.weights.items }
        ensures range { AreInRange self.new.weights.items }
    {
        for i in (0..stage.len()).rev() {
            let weight = stage[i];
            let v = weight.var as usize - 1;
            self.places[v] = k;
            self.weights[v] = weight.x;
        }
    }
}

/// Whether a variable has another sign than its first weight.
fn is_bad_sign(values: &Partial, weights: &[i128], v: u32) -> bool
    requires first { 0 < v }
    requires values { v ≤ length values.now }
    requires weights { v ≤ length weights.now }
    ensures { result ≡ is_bad_sign values.now weights.now v }
{
    !is_same_value(values.value(v), sign_at(weights, v))
}

/// The sign of a variable's weight, if it is not 0.
fn sign_at(weights: &[i128], v: u32) -> Option<bool>
    requires first { 0 < v }
    requires weights { v ≤ length weights.now }
    ensures { result ≡ sign_of (slice_index_or weights.now (v - 1) (pos 0)) }
{
    match weights[v as usize - 1].cmp(&0) {
        Ordering::Less => Some(false),
        Ordering::Equal => None,
        Ordering::Greater => Some(true),
    }
}

/// Whether two values are the same, or both are none.
fn is_same_value(one: Option<bool>, other: Option<bool>) -> bool
    ensures { result ≡ is_same_value one other }
{
    one == other
}

/// The first position, counted from 1, at whose clause the balance that counts is below 0, or none: that
/// of the first stage with a weight on the clause. The error says that memory ran out.
pub fn bad_stage<R: Threads + Sync, G: Gate>(
    workers: &Workers<R, G>,
    alloc: Global,
    f: &Formula,
    d: &DoneDocument,
    stages: &[Stage],
) -> Result<Option<u32>, OutOfMemory>
    requires stages { IsTrue (list_all (is_stage f.now.vars) stages.now) }
    ensures { IfOk result (λ place. place ≡ (bad_stage f.now d.now stages.now).place) }
{
    let firsts = firsts_of(alloc, f.vars(), stages)?;
    let last = stages.len();
    workers.least_found(f.len(), &|span| bad_stage_in(alloc, f, &firsts, last, span))
}

/// The first such position in a range.
fn bad_stage_in(
    alloc: Global,
    f: &Formula,
    firsts: &Firsts,
    last: usize,
    span: Span,
) -> Result<Option<u32>, OutOfMemory>
    requires places { length firsts.now.places.items ≡ f.now.vars }
    requires weights { length firsts.now.weights.items ≡ f.now.vars }
    requires range { AreInRange firsts.now.weights.items }
    requires first { 0 < span.first }
    requires within { span.first + span.count ≤ length f.now.clauses + 1 }
    requires few { span.first + span.count < 2 ^ 32 }
    ensures { IfOk result
        (λ place. place ≡ find
        (λ p. is_bad_stage last firsts.now.places.items firsts.now.weights.items (clause_at f.now p))
        (places_in span)) }
{
    for p in span.first..span.first + span.count {
        if is_bad_stage(alloc, firsts, last, f.vars(), f.clause(p))? {
            return Ok(Some(p));
        }
    }
    Ok(None)
}

/// Whether the weights of a clause at the least of its stages have a sum below 0.
fn is_bad_stage(
    alloc: Global,
    firsts: &Firsts,
    last: usize,
    n: u32,
    clause: &[Lit],
) -> Result<bool, OutOfMemory>
    requires clause { IsTrue (list_all (is_literal n) clause.now) }
    requires places { length firsts.now.places.items ≡ n }
    requires weights { length firsts.now.weights.items ≡ n }
    requires range { AreInRange firsts.now.weights.items }
    ensures { IfOk result (λ bad. bad ≡ is_bad_stage last firsts.now.places.items firsts.now.weights.items clause.now) }
{
    let least = least_stage(&firsts.places, last, n, clause);
    let numbers = weights_at(alloc, least, firsts, n, clause)?;
    Ok(sign_of_sum(numbers.as_slice()) == Ordering::Less)
}

/// The least of the stages of a clause's variables, and at most the last number.
fn least_stage(places: &[usize], last: usize, n: u32, clause: &[Lit]) -> usize
    requires clause { IsTrue (list_all (is_literal n) clause.now) }
    requires places { length places.now ≡ n }
    ensures { result ≡ least_stage last places.now clause.now }
{
    let mut least = last;
    for l in clause {
        least = least.min(places[l.var() as usize - 1]);
    }
    least
}

/// The weights of a clause's literals whose variables have this stage.
fn weights_at(
    alloc: Global,
    stage: usize,
    firsts: &Firsts,
    n: u32,
    clause: &[Lit],
) -> Result<Vec<i128>, OutOfMemory>
    requires clause { IsTrue (list_all (is_literal n) clause.now) }
    requires places { length firsts.now.places.items ≡ n }
    requires weights { length firsts.now.weights.items ≡ n }
    requires range { AreInRange firsts.now.weights.items }
    ensures { IfOk result
        (λ numbers. numbers.items ≡ weights_at stage firsts.now.places.items firsts.now.weights.items clause.now) }
{
    let mut numbers = Vec::new(alloc);
    for l in clause {
        push_weight(stage, firsts, n, *l, &mut numbers)?;
    }
    Ok(numbers)
}

/// Appends the weight of a literal, where its variable has this stage.
fn push_weight(
    stage: usize,
    firsts: &Firsts,
    n: u32,
    l: Lit,
    numbers: &mut Vec<i128>,
) -> Result<(), OutOfMemory>
    requires literal { IsTrue (is_literal n l) }
    requires places { length firsts.now.places.items ≡ n }
    requires weights { length firsts.now.weights.items ≡ n }
    requires range { AreInRange firsts.now.weights.items }
    ensures { OnOk result
        (numbers.new.items ≡ numbers.old.items ++ weights_at stage firsts.now.places.items firsts.now.weights.items
        (l ∷ [])) }
{
    let v = l.var() as usize - 1;
    if firsts.places[v] == stage {
        numbers.push(signed(l, firsts.weights[v]))?;
    }
    Ok(())
}
