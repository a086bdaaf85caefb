//! What is asked of a place for a matching document.
ghost use Rattle.std.specs.Prelude.{◌≡◌, ◌≤◌, ◌<◌, ◌-◌, ◌&&◌, ◌==◌, length, slice_index, IsTrue};
ghost use Rattle.std.specs.List.{list_all};
ghost use Rattle.lk_model.specs.Formulas.Literal.{is_literal, variable};
ghost use Rattle.lk_model.specs.Formulas.Formula.{clause_at};
ghost use Rattle.lk_model.specs.Formulas.Assignment.{makes_true};
ghost use Rattle.lk_model.specs.Held.PartialValues.{assignment_by};
ghost use Rattle.check_places.specs.Places.{holds_true, is_bad_owner, is_misranked};

use crate::tables::number_at;
use lk_model::{Formula, Lit};
use partial_assign::Partial;

/// What the own lines say: the variable of each position's line, 0 where it has none, and the first
/// position with a line of each variable, the last of all where none has it.
#[derive(Drop)]
pub struct Owners {
    pub of_position: Vec<u32>,
    pub first: Vec<u32>,
}

/// Whether the own line of a position is missing, not wanted or bad.
pub fn is_bad_owner(f: &Formula, values: &Partial, kept: &[bool], owners: &Owners, p: u32) -> bool
    requires vars { length values.now ≡ f.now.vars }
    requires kept { length kept.now ≡ length f.now.clauses }
    requires first { 0 < p }
    requires last { p ≤ length f.now.clauses }
    ensures { result ≡ is_bad_owner
        (assignment_by values.now) kept.now owners.now.of_position.items owners.now.first.items p (clause_at f.now p) }
{
    let v = number_at(&owners.of_position, p);
    if v == 0 {
        !kept[p as usize - 1]
    } else {
        kept[p as usize - 1]
            || !holds_true(values, v, f.clause(p))
            || number_at(&owners.first, v) < p
    }
}

/// Whether a literal of the clause on a variable is true.
fn holds_true(values: &Partial, v: u32, clause: &[Lit]) -> bool
    requires { IsTrue (list_all (is_literal (length values.now)) clause.now) }
    ensures { result ≡ holds_true (assignment_by values.now) v clause.now }
{
    clause.iter().any(|l| is_true_on(values, v, *l))
}

/// Whether a literal is one on the variable, and true.
fn is_true_on(values: &Partial, v: u32, l: Lit) -> bool
    requires { IsTrue (is_literal (length values.now) l) }
    ensures { result ≡ (makes_true (assignment_by values.now) l && variable l == v) }
{
    makes_true(values, l) && l.var() == v
}

/// Whether a literal is true.
fn makes_true(values: &Partial, l: Lit) -> bool
    requires { IsTrue (is_literal (length values.now) l) }
    ensures { result ≡ makes_true (assignment_by values.now) l }
{
    values.value(l.var()) == Some(l.positive())
}

/// Whether the escape of a row of this rank is the own position of a row whose rank is not lower. The table has for each
/// position one more than the greatest rank of the rows with this own position, and 0 if there is none.
pub fn is_misranked(bounds: &[u64], rank: u32, escape: u32) -> bool
    ensures { result ≡ is_misranked bounds.now rank escape }
{
    u64::from(rank) < bound_at(bounds, escape)
}

/// The bound on the ranks at a position, 0 outside of the table.
fn bound_at(bounds: &[u64], p: u32) -> u64
    ensures { result ≡ slice_index bounds.now (p - 1) }
{
    match bounds.get((p as usize).saturating_sub(1)) {
        Some(bound) => *bound,
        None => 0,
    }
}
