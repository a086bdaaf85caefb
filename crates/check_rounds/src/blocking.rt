//! Which variables the rounds of a document block.
//!
//! Each variable has the first round that blocks it, so that one table tells what was blocked before any round. A whole
//! round is gone through once from its last step backwards, with a mark for each step that is reached; what a reached
//! step names is marked, or its variables are put into the table. Positions have the round that put theirs there last, so
//! that a clause is gone through once in a round, however often its chains name it.
ghost use Rattle.std.specs.Prelude.{◌≡◌, ◌≤◌, ◌<◌, ◌+◌, ◌∷◌, ◌++◌, ℕ, List, length, IfOk, OnOk, IsTrue};
ghost use Rattle.std.specs.List.{list_all};
ghost use Rattle.lk_model.specs.Formulas.Literal.{is_literal};
ghost use Rattle.lk_model.specs.Formulas.Formula.{clause_at};
ghost use Rattle.lk_model.specs.Formulas.Lean.{are_positions};
ghost use Rattle.lk_model.specs.Formulas.Crossed.{no_variable};
ghost use Rattle.lk_model.specs.Chains.Chain.{names_of};
ghost use Rattle.lk_model.specs.Chains.Rounds.{is_refutation};
ghost use Rattle.lk_model.specs.Documents.Documents.{steps_of};
ghost use Rattle.lk_model.specs.Documents.Form.{are_steps, is_step};
ghost use Rattle.lk_model.specs.Checks.RoundChecks.{not_blocked};
ghost use Rattle.check_rounds.specs.Blocking.{AreBlocks, AreRoundSteps, AreMarked, AreSeen, BlocksClause, BlocksRound};
ghost use Rattle.check_rounds.specs.Blocking.{is_before, is_unblocked, first_number};

use check_places::is_reached;
use check_tables::{Workers, occurring_at};
use lk_model::{DoneDocument, Formula, Lit, OutOfMemory, Round, Step, VarSet};
use lk_outside::Gate;
use std::alloc::Global;
use std::thread::Threads;

/// The first variable of the kept clauses that is not blocked after all rounds, or none, by the table of
/// `blocks_of`. The error says that memory ran out.
pub fn not_blocked<R: Threads + Sync, G: Gate>(
    workers: &Workers<R, G>,
    alloc: Global,
    f: &Formula,
    d: &DoneDocument,
    rounds: &[Round],
    blocks: &[usize],
) -> Result<Option<u32>, OutOfMemory>
    requires kept { IsTrue (are_positions f.now d.now.kept) }
    requires blocks { AreBlocks f.now 0 rounds.now blocks.now }
    ensures { IfOk result (λ place. place ≡ (not_blocked no_variable f.now d.now rounds.now).place) }
{
    let occurring = occurring_at(alloc, f, d.kept.as_slice())?;
    let end = rounds.len();
    workers.least_place(f.vars(), &|v| is_unblocked(end, &occurring, blocks, v))
}

/// Whether a variable occurs and is not blocked before a round.
fn is_unblocked(k: usize, occurring: &VarSet, blocks: &[usize], v: u32) -> bool
    requires first { 0 < v }
    requires occurring { v ≤ length occurring.now }
    requires blocks { v ≤ length blocks.now }
    ensures { result ≡ is_unblocked k occurring.now blocks.now v }
{
    occurring.has(v) && !is_before(k, blocks, v)
}

/// Whether a variable is blocked before a round.
pub(crate) fn is_before(k: usize, blocks: &[usize], v: u32) -> bool
    requires first { 0 < v }
    requires last { v ≤ length blocks.now }
    ensures { result ≡ is_before k blocks.now v }
{
    blocks[v as usize - 1] < k
}

/// For each variable the index of the first round that blocks it, counted from 0, or the number of rounds
/// where none does. The variable v is at the place v - 1. The error says that memory ran out.
pub fn blocks_of(alloc: Global, f: &Formula, rounds: &[Round]) -> Result<Vec<usize>, OutOfMemory>
    requires { IsTrue (are_steps f.now.vars (length f.now.clauses) (steps_of rounds.now)) }
    ensures { IfOk result (λ table. AreBlocks f.now 0 rounds.now table.items) }
{
    let mut table = vec![in alloc; rounds.len(); f.vars() as usize]?;
    let mut seen = vec![in alloc; rounds.len(); f.len() as usize]?;
    for k in (0..rounds.len()).rev() {
        block(alloc, f, k, &rounds[k], &mut seen, &mut table)?;
    }
    Ok(table)
}

/// Puts a round into the table at the variables that it blocks.
fn block(
    alloc: Global,
    f: &Formula,
    k: usize,
    round: &Round,
    seen: &mut [usize],
    table: &mut [usize],
) -> Result<(), OutOfMemory>
    requires steps { AreRoundSteps f.now.vars (length f.now.clauses) round.now.steps }
    requires size { length table.old ≡ f.now.vars }
    requires seen { AreSeen f.now k seen.old table.old }
    ensures blocked { OnOk result (BlocksRound f.now k round.now table.old table.new) }
    ensures seen { OnOk result (AreSeen f.now k seen.new table.new) }
{
    let steps = round.steps.as_slice();
    if is_refutation(steps) {
        block_reached(alloc, f, k, steps, seen, table)?;
    }
    Ok(())
}

/// Whether the last clause is empty.
fn is_refutation(steps: &[Step]) -> bool
    ensures { result ≡ is_refutation steps.now }
{
    match steps.last() {
        Some(step) => step.clause.len() == 0,
        None => false,
    }
}

/// Puts a whole round into the table at the variables of the clauses that it uses.
fn block_reached(
    alloc: Global,
    f: &Formula,
    k: usize,
    steps: &[Step],
    seen: &mut [usize],
    table: &mut [usize],
) -> Result<(), OutOfMemory>
    requires whole { IsTrue (is_refutation steps.now) }
    requires steps { AreRoundSteps f.now.vars (length f.now.clauses) steps.now }
    requires size { length table.old ≡ f.now.vars }
    requires seen { AreSeen f.now k seen.old table.old }
    ensures blocked { OnOk result (BlocksRound f.now k (record { steps = steps.now }) table.old table.new) }
    ensures seen { OnOk result (AreSeen f.now k seen.new table.new) }
{
    let mut marks = vec![in alloc; false; steps.len()]?;
    let first = first_number(steps);
    for i in (0..steps.len()).rev() {
        if is_reached(&marks, i) {
            mark_names(f, k, first, &steps[i], &mut marks, seen, table);
        }
    }
    Ok(())
}

/// The number of the first step.
fn first_number(steps: &[Step]) -> u64
    ensures { result ≡ first_number steps.now }
{
    match steps.first() {
        Some(step) => step.number,
        None => 0,
    }
}

/// Marks what the chain of a step names.
fn mark_names(
    f: &Formula,
    k: usize,
    first: u64,
    step: &Step,
    marks: &mut [bool],
    seen: &mut [usize],
    table: &mut [usize],
)
    requires past { length f.now.clauses < first }
    requires form { IsTrue (is_step f.now.vars step.now) }
    requires number { step.now.number ≤ first + length marks.old }
    requires size { length table.old ≡ f.now.vars }
    requires seen { AreSeen f.now k seen.old table.old }
    ensures marks_size { length marks.new ≡ length marks.old }
    ensures table_size { length table.new ≡ length table.old }
    ensures seen { AreSeen f.now k seen.new table.new }
    ensures marked { (known before : List ℕ) →
        AreMarked f.now k first (length marks.old) known before marks.old table.old
        → AreMarked f.now k first (length marks.old) (names_of step.now ++ known) before marks.new table.new }
{
    mark(f, k, first, step.first, marks, seen, table);
    for turn in step.turns.as_slice() {
        mark(f, k, first, turn.with, marks, seen, table);
    }
}

/// Marks the step of a number, or puts the variables of the clause at a position into the table.
fn mark(
    f: &Formula,
    k: usize,
    first: u64,
    number: u64,
    marks: &mut [bool],
    seen: &mut [usize],
    table: &mut [usize],
)
    requires past { length f.now.clauses < first }
    requires least { 0 < number }
    requires most { number < first + length marks.old }
    requires size { length table.old ≡ f.now.vars }
    requires seen { AreSeen f.now k seen.old table.old }
    ensures marks_size { length marks.new ≡ length marks.old }
    ensures table_size { length table.new ≡ length table.old }
    ensures seen { AreSeen f.now k seen.new table.new }
    ensures marked { (known before : List ℕ) →
        AreMarked f.now k first (length marks.old) known before marks.old table.old
        → AreMarked f.now k first (length marks.old) (number ∷ known) before marks.new table.new }
{
    if number <= u64::from(f.len()) {
        block_position(f, k, number as u32, seen, table);
    } else if number >= first {
        marks[(number - first) as usize] = true;
    }
}

/// Puts a number into the table at the variables of the clause at a position, if that was not done before.
fn block_position(f: &Formula, k: usize, p: u32, seen: &mut [usize], table: &mut [usize])
    requires first { 0 < p }
    requires last { p ≤ length f.now.clauses }
    requires size { length table.old ≡ f.now.vars }
    requires seen { AreSeen f.now k seen.old table.old }
    ensures blocked { BlocksClause f.now.vars k (clause_at f.now p) table.old table.new }
    ensures seen { AreSeen f.now k seen.new table.new }
{
    let i = p as usize - 1;
    if seen[i] != k {
        block_clause(f.vars(), k, f.clause(p), table);
        seen[i] = k;
    }
}

/// Puts a number into the table at the variables of a clause.
fn block_clause(n: u32, k: usize, clause: &[Lit], table: &mut [usize])
    requires clause { IsTrue (list_all (is_literal n) clause.now) }
    requires size { length table.old ≡ n }
    ensures { BlocksClause n k clause.now table.old table.new }
{
    for l in clause {
        table[l.var() as usize - 1] = k;
    }
}
