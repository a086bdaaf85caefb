//! Model rotation.
//!
//! A witness leaves the clause at its place false and satisfies all others of a refuted set. With a literal of that
//! clause made true it satisfies this clause too. If just one other clause of the set is false then, it is a witness
//! for that one (Marques-Silva and Lynce, "On Improving MUS Extraction Algorithms", 2011; from there on again: Belov
//! and Marques-Silva, "Accelerating MUS Extraction with Recursive Model Rotation", 2011; also through clauses that have
//! a witness already: Wieringa, "Understanding, Improving and Parallelizing MUS Finding Using Model Rotation", 2012).
//!
//! Here each place is visited at most once for each decision, whether or not it had a witness, and its witness is
//! replaced: any witness is as good as another. Only clauses with the complement of the literal can become false, and
//! lists of these are made once.
ghost use Rattle.std.specs.Prelude.{◌≡◌, ◌<◌, ◌≤◌, [], ℕ, Bool, is_some, length, IfOk, IfSome, OnOk, IsTrue};
ghost use Rattle.std.specs.List.{list_all};
ghost use Rattle.lk_model.specs.Lists.{among};
ghost use Rattle.lk_model.specs.Formulas.Literal.{contains, is_literal};
ghost use Rattle.lk_model.specs.Formulas.Formula.{clause_at};
ghost use Rattle.lk_model.specs.Formulas.Lean.{are_positions};
ghost use Rattle.lk_model.specs.Formulas.Minimal.{all_but, with_made_true};
ghost use Rattle.lk_model.specs.Formulas.Assignment.{makes_true, satisfies, IsModel};
ghost use Rattle.lk_model.specs.Held.PartialValues.{assignment_by};
ghost use Rattle.occurrence_lists.specs.Occurrences.{AreOccurrences};
ghost use Rattle.mus_core.specs.Flags.{flag_at};
ghost use Rattle.mus_core.specs.WitnessValues.{AreHeld, IsRotated, witness_at};
ghost use Rattle.mus_core.specs.Rotations.{fails, IsOnly, IsRotating, IsWitnessOf, WentOn};

use crate::flags::{flag_at, flags_of};
use crate::witnesses::Witnesses;
use lk_model::{Formula, Lit, OutOfMemory};
use occurrence_lists::OccurrenceLists;
use partial_assign::Partial;
use std::alloc::Global;

/// The clauses of a refuted set among others, and where their literals occur.
#[derive(Drop)]
pub(crate) struct Rotating<'a> {
    pub clauses: &'a Formula,
    pub lists: &'a OccurrenceLists,
    /// Flags of the places of the set.
    pub inside: &'a [bool],
}

/// Places that were visited or are to be, in their order.
#[derive(Drop)]
pub(crate) struct Walk {
    pub known: Vec<bool>,
    pub places: Vec<u32>,
}

impl Walk {
    // Among places up to m.
    fn new(alloc: Global, m: u32) -> Result<Walk, OutOfMemory>
        ensures { IfOk result (λ walk. walk.places.items ≡ []) }
    {
        Ok(Walk {
            known: vec![in alloc; false; m as usize + 1]?,
            places: Vec::new(alloc),
        })
    }

    // Takes up a place if it is not known, and returns whether it did.
    fn come_to(&mut self, p: u32) -> Result<bool, OutOfMemory>
        ensures { (t : ℕ → Bool) → IsTrue (t p) → IsTrue (list_all t self.old.places.items) →
            IsTrue (list_all t self.new.places.items) }
    {
        let place = p as usize;
        if place < self.known.len() && !self.known[place] {
            self.known[place] = true;
            self.places.push(p)?;
            return Ok(true);
        }
        Ok(false)
    }
}

/// Gives a witness to a place, and goes on from it to others.
pub(crate) fn give(
    alloc: Global,
    clauses: &Formula,
    lists: &OccurrenceLists,
    places: &[u32],
    witnesses: &mut Witnesses,
    p: u32,
    values: Partial,
) -> Result<(), OutOfMemory>
    requires lists { AreOccurrences clauses.now lists.now }
    requires places { IsTrue (are_positions clauses.now places.now) }
    requires held { AreHeld clauses.now (among places.now) witnesses.old }
    requires there { IsTrue (among places.now p) }
    requires vars { length values ≡ clauses.now.vars }
    requires satisfied { IsModel clauses.now (all_but (among places.now) p) (assignment_by values) }
    ensures rotated { OnOk result (IsRotated clauses.now (among places.now) witnesses.old witnesses.new) }
    ensures given { OnOk result (IsTrue (is_some (witness_at witnesses.new p))) }
{
    witnesses.put(p, values);
    rotate(alloc, clauses, lists, places, witnesses, p)
}

// Goes on from the witness of a place to those of others.
fn rotate(
    alloc: Global,
    clauses: &Formula,
    lists: &OccurrenceLists,
    places: &[u32],
    witnesses: &mut Witnesses,
    start: u32,
) -> Result<(), OutOfMemory>
    requires lists { AreOccurrences clauses.now lists.now }
    requires places { IsTrue (are_positions clauses.now places.now) }
    requires held { AreHeld clauses.now (among places.now) witnesses.old }
    requires start { IsTrue (among places.now start) }
    ensures { OnOk result (IsRotated clauses.now (among places.now) witnesses.old witnesses.new) }
{
    let inside = flags_of(alloc, clauses.len(), places)?;
    let core = Rotating {
        clauses,
        lists,
        inside: &inside,
    };
    let mut walk = Walk::new(alloc, clauses.len())?;
    walk.come_to(start)?;
    go_on(alloc, &core, witnesses, &mut walk)
}

// Visits the places of a walk, which grows meanwhile.
fn go_on(
    alloc: Global,
    core: &Rotating,
    witnesses: &mut Witnesses,
    walk: &mut Walk,
) -> Result<(), OutOfMemory>
    requires core { IsRotating core.now }
    requires held { AreHeld core.now.clauses.now (flag_at core.now.inside.now) witnesses.old }
    requires walk { IsTrue (list_all (flag_at core.now.inside.now) walk.old.places.items) }
    ensures { OnOk result (WentOn core.now witnesses.old witnesses.new walk.new.places.items) }
{
    // Each place is there once at most.
    for i in 0..core.clauses.len() as usize {
        if i < walk.places.len() {
            let p = walk.places[i];
            visit(alloc, core, witnesses, walk, p)?;
        }
    }
    Ok(())
}

// Flips the witness of a place, if there is one, at each literal of the clause there.
fn visit(
    alloc: Global,
    core: &Rotating,
    witnesses: &mut Witnesses,
    walk: &mut Walk,
    p: u32,
) -> Result<(), OutOfMemory>
    requires core { IsRotating core.now }
    requires held { AreHeld core.now.clauses.now (flag_at core.now.inside.now) witnesses.old }
    requires walk { IsTrue (list_all (flag_at core.now.inside.now) walk.old.places.items) }
    requires inside { IsTrue (flag_at core.now.inside.now p) }
    ensures { OnOk result (WentOn core.now witnesses.old witnesses.new walk.new.places.items) }
{
    match witnesses.copy(alloc, p)? {
        Some(values) => flip_each(alloc, core, &values, witnesses, walk, p),
        None => Ok(()),
    }
}

// Flips values that satisfy all other clauses, at each literal of the clause at a place.
fn flip_each(
    alloc: Global,
    core: &Rotating,
    values: &Partial,
    witnesses: &mut Witnesses,
    walk: &mut Walk,
    p: u32,
) -> Result<(), OutOfMemory>
    requires core { IsRotating core.now }
    requires held { AreHeld core.now.clauses.now (flag_at core.now.inside.now) witnesses.old }
    requires walk { IsTrue (list_all (flag_at core.now.inside.now) walk.old.places.items) }
    requires inside { IsTrue (flag_at core.now.inside.now p) }
    requires values { IsWitnessOf core.now p values.now }
    ensures { OnOk result (WentOn core.now witnesses.old witnesses.new walk.new.places.items) }
{
    for l in core.clauses.clause(p) {
        flip(alloc, core, values, witnesses, walk, p, *l)?;
    }
    Ok(())
}

// Flips them at one literal, where they become a witness for a place that is not known yet.
fn flip(
    alloc: Global,
    core: &Rotating,
    values: &Partial,
    witnesses: &mut Witnesses,
    walk: &mut Walk,
    p: u32,
    l: Lit,
) -> Result<(), OutOfMemory>
    requires core { IsRotating core.now }
    requires held { AreHeld core.now.clauses.now (flag_at core.now.inside.now) witnesses.old }
    requires walk { IsTrue (list_all (flag_at core.now.inside.now) walk.old.places.items) }
    requires values { IsWitnessOf core.now p values.now }
    requires literal { IsTrue (is_literal core.now.clauses.now.vars l) }
    requires there { IsTrue (contains (clause_at core.now.clauses.now p) l) }
    ensures { OnOk result (WentOn core.now witnesses.old witnesses.new walk.new.places.items) }
{
    if let Some(q) = only_failing(core, values, l) {
        if walk.come_to(q)? {
            let mut flipped = values.copy(alloc)?;
            flipped.make_true(l);
            witnesses.put(q, flipped);
        }
    }
    Ok(())
}

// The place of the set whose clause alone is false once the literal is true.
fn only_failing(core: &Rotating, values: &Partial, l: Lit) -> Option<u32>
    requires core { IsRotating core.now }
    requires vars { length values.now ≡ core.now.clauses.now.vars }
    requires literal { IsTrue (is_literal core.now.clauses.now.vars l) }
    ensures { IfSome result (IsOnly core.now (assignment_by values.now) l) }
{
    let mut found = None;
    for k in core.lists.positions(l.negated()) {
        if fails(core, values, l, *k) {
            if found.is_some() {
                return None;
            }
            found = Some(*k);
        }
    }
    found
}

// Whether a place is one of the set and the clause there is false once the literal is true.
fn fails(core: &Rotating, values: &Partial, l: Lit, k: u32) -> bool
    requires first { 0 < k }
    requires last { k ≤ length core.now.clauses.now.clauses }
    requires vars { length values.now ≡ core.now.clauses.now.vars }
    ensures { result ≡ fails core.now (assignment_by values.now) l k }
{
    flag_at(core.inside, k) && !satisfied(values, core.clauses.clause(k), l)
}

// Whether a literal of the clause is true once this one is.
fn satisfied(values: &Partial, clause: &[Lit], l: Lit) -> bool
    requires { IsTrue (list_all (is_literal (length values.now)) clause.now) }
    ensures { result ≡ satisfies (with_made_true (assignment_by values.now) l) clause.now }
{
    clause.iter().any(|m| makes_true(values, l, *m))
}

// Whether a literal is true once the first one is.
fn makes_true(values: &Partial, l: Lit, m: Lit) -> bool
    requires { IsTrue (is_literal (length values.now) m) }
    ensures { result ≡ makes_true (with_made_true (assignment_by values.now) l) m }
{
    if m.var() == l.var() {
        m.positive() == l.positive()
    } else {
        values.value(m.var()) == Some(m.positive())
    }
}
