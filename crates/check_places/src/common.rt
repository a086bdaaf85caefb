//! What is asked of a place for every finished document.
ghost use Rattle.std.specs.Prelude.{◌≡◌, ◌≤◌, ◌<◌, length, find, is_some, IsTrue};
ghost use Rattle.lk_model.specs.Lists.{rises_within};
ghost use Rattle.lk_model.specs.Formulas.Formula.{clause_at};
ghost use Rattle.lk_model.specs.Held.PartialValues.{assignment_by};
ghost use Rattle.check_places.specs.Flags.{is_flagged};
ghost use Rattle.check_places.specs.Places.{is_misplaced};

use lk_model::Formula;
use partial_assign::Partial;

/// Whether the clause at a position is touched and kept, or neither.
pub fn is_misplaced(f: &Formula, values: &Partial, flags: &[bool], p: u32) -> bool
    requires vars { length values.now ≡ f.now.vars }
    requires flags { length flags.now ≡ length f.now.clauses }
    requires first { 0 < p }
    requires last { p ≤ length f.now.clauses }
    ensures { result ≡ is_misplaced (assignment_by values.now) (is_flagged flags.now p) (clause_at f.now p) }
{
    flags[p as usize - 1] == values.touches(f.clause(p))
}

/// The first of the listed variables, which ascend, that is set.
pub fn first_set(vars: &[u32], values: &Partial) -> Option<u32>
    requires { IsTrue (rises_within 0 (length values.now) vars.now) }
    ensures { result ≡ find (λ v. is_some (assignment_by values.now v)) vars.now }
{
    for v in vars {
        if values.value(*v).is_some() {
            return Some(*v);
        }
    }
    None
}
