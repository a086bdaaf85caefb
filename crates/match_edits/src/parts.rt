//! The steps of an edit, over what holds the live clauses.
ghost use Rattle.std.specs.Prelude.{◌≡◌, ◌≢◌, ◌+◌, ◌-◌, ◌<◌, ◌≤◌, ℕ, List, length, slice_index, OnOk};
ghost use Rattle.std.specs.Prelude.{OnErr, IfSome, IfNone, IsTrue, IsFalse, true};
ghost use Rattle.std.specs.Bool.{OnTrue};
ghost use Rattle.lk_model.specs.Lists.{among, rises_within};
ghost use Rattle.lk_model.specs.Limits.{max_clauses, max_literals};
ghost use Rattle.lk_model.specs.Formulas.Literal.{mentions};
ghost use Rattle.lk_model.specs.Formulas.Formula.{clause_at, is_formula, literal_count, IsWithinLimits};
ghost use Rattle.bipartite_match.specs.declared.augmenting.Start.TheVariants.{Clause, Variable};
ghost use Rattle.bipartite_match.specs.Behind.{matching_of};
ghost use Rattle.edit_text.specs.Edits.{has_room};
ghost use Rattle.match_edits.specs.Held.{IsLiveBy, with_bare, without_bare, with_free};
ghost use Rattle.match_edits.specs.EditLaws.{RestoredBy};

use bipartite_match::{Pairs, Start, Steps};
use lk_model::{Formula, Lit, OutOfMemory, VarSet};
use std::alloc::Global;

/// What holds of every formula, said where a contract needs it.
pub fn well_formed(f: &Formula)
    ensures formula { IsTrue (is_formula f.now) }
    ensures limits { IsWithinLimits f.now }
{
    let _ = f.vars();
}

/// Whether one more clause of these literals passes no limit.
pub fn has_room(held: &Formula, lits: &[Lit]) -> bool
    ensures value { (live : List ℕ) → result ≡ has_room (record { held = held.now; live = live }) lits.now }
    ensures room { OnTrue result ((length held.now.clauses < max_clauses) ×
        (literal_count held.now + length lits.now ≤ max_literals)) }
{
    held.has_room(lits.len())
}

/// One more clause, which has no variable yet, looks for one. Without memory all is as it was.
pub fn take_up<L>(
    alloc: Global,
    held: &Formula,
    pairs: &mut Pairs,
    marks: &mut VarSet,
    number: u32,
    steps: &mut Steps<L>,
) -> Result<(), OutOfMemory>
    requires { (part : List ℕ) × (own : List ℕ) ×
        RestoredBy held.now part (matching_of own (with_bare pairs.old number) marks.old) (Clause number) }
    ensures live { (part own : List ℕ)
        → RestoredBy held.now part (matching_of own (with_bare pairs.old number) marks.old) (Clause number)
        → OnOk result (IsLiveBy held.now part pairs.new marks.new) }
    ensures err { OnErr result (pairs.new ≡ pairs.old) }
    ensures marks { marks.new ≡ marks.old }
    ensures step { steps.new ≤ steps.old + 1 }
{
    pairs.unmatched.push(number)?;
    if let Err(e) = restore(alloc, held, pairs, marks, Start::Clause(number), steps) {
        let _ = pairs.unmatched.pop();
        return Err(e);
    }
    Ok(())
}

/// The clause at an index of those without a variable goes. It takes no search and no memory.
pub fn go_unmatched(pairs: &mut Pairs, index: usize)
    requires { index < length pairs.old.unmatched }
    ensures { pairs.new ≡ without_bare pairs.old index }
{
    let _ = pairs.unmatched.remove(index);
}

/// A clause goes, and its variable looks for another one. If each clause has a variable, there is none to look for.
/// Without memory all is as it was.
pub fn let_go<L>(
    alloc: Global,
    held: &Formula,
    pairs: &mut Pairs,
    marks: &mut VarSet,
    v: u32,
    steps: &mut Steps<L>,
) -> Result<(), OutOfMemory>
    requires some { 0 < v }
    requires within { v ≤ length pairs.old.of_var }
    requires restored { (part : List ℕ) × (own : List ℕ) ×
        RestoredBy held.now part (matching_of own (with_free pairs.old v) marks.old) (Variable v) }
    ensures live { (part own : List ℕ)
        → RestoredBy held.now part (matching_of own (with_free pairs.old v) marks.old) (Variable v)
        → OnOk result (IsLiveBy held.now part pairs.new marks.new) }
    ensures err { OnErr result (pairs.new ≡ pairs.old) }
    ensures marks { marks.new ≡ marks.old }
    ensures step { steps.new ≤ steps.old + 1 }
{
    let index = v as usize - 1;
    let number = number_at_index(pairs.of_var.as_slice(), index);
    pairs.of_var.set(index, 0);
    if pairs.unmatched.len() == 0 {
        return Ok(());
    }
    if let Err(e) = restore(alloc, held, pairs, marks, Start::Variable(v), steps) {
        pairs.of_var.set(index, number);
        return Err(e);
    }
    Ok(())
}

// One search from the start that makes the matching maximum again.
fn restore<L>(
    alloc: Global,
    held: &Formula,
    pairs: &mut Pairs,
    marks: &mut VarSet,
    from: Start,
    steps: &mut Steps<L>,
) -> Result<(), OutOfMemory>
    requires { (part : List ℕ) × (own : List ℕ) × RestoredBy held.now part (matching_of own pairs.old marks.old) from }
    ensures live { (part own : List ℕ) → RestoredBy held.now part (matching_of own pairs.old marks.old) from
        → OnOk result (IsLiveBy held.now part pairs.new marks.new) }
    ensures err { OnErr result (pairs.new ≡ pairs.old) }
    ensures marks { marks.new ≡ marks.old }
    ensures step { steps.new ≤ steps.old + 1 }
{
    let _ = pairs.augment(alloc, held, marks, from, steps)?;
    Ok(())
}

/// The variable of the clause of a number, if it has one.
pub fn variable_of(held: &Formula, of_var: &[u32], number: u32) -> Option<u32>
    requires { length of_var.now ≡ held.now.vars }
    ensures some { IfSome result (λ v. (0 < v) × (v ≤ length of_var.now) × (0 < number) ×
        (slice_index of_var.now (v - 1) ≡ number)) }
    ensures none { IfNone result ((v : ℕ) → IsTrue (mentions (clause_at held.now number) v)
        → slice_index of_var.now (v - 1) ≢ number) }
{
    if number == 0 || number > held.len() {
        return None;
    }
    for l in held.clause(number) {
        let v = l.var();
        if number_at_index(of_var, v as usize - 1) == number {
            return Some(v);
        }
    }
    None
}

/// The number at an index.
pub fn number_at_index(numbers: &[u32], index: usize) -> u32
    requires { index < length numbers.now }
    ensures { result ≡ slice_index numbers.now index }
{
    numbers[index]
}

/// The index of a number that stands in a list that rises, where it does.
pub fn index_of(numbers: &[u32], number: u32) -> Option<usize>
    requires { (high : ℕ) × (rises_within 0 high numbers.now ≡ true) }
    ensures there { IfSome result (λ i. (i < length numbers.now) × (slice_index numbers.now i ≡ number)) }
    ensures none { IfNone result (IsFalse (among numbers.now number)) }
{
    match numbers.binary_search(&number) {
        Ok(index) => Some(index),
        Err(_) => None,
    }
}
