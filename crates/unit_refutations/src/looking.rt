//! What a clause asks for.
ghost use Rattle.std.specs.Prelude.{◌≡◌, ◌+◌, ◌*◌, ◌<◌, ◌++◌, ◌∷◌, [], List, ℤ, length, IsTrue};
ghost use Rattle.lk_model.specs.Formulas.Literal.{complement, is_clause, rank_of};
ghost use Rattle.lk_model.specs.Formulas.Crossed.{crossed_out};
ghost use Rattle.lk_model.specs.Held.VariableSets.{is_in};
ghost use Rattle.unit_refutations.specs.Looks.{IsLook, IsLookSoFar, IsNext};

use crate::trail::Trail;
use lk_model::{Lit, VarSet};

/// What a clause without the literals of blocked variables asks for.
#[derive(Clone, Copy)]
pub(crate) enum Look {
    /// Nothing: it is empty, has a true literal, or has two that are unset.
    Nothing,
    /// That its only unset literal becomes true, since the others are false.
    Truth(Lit),
    /// It is false.
    Conflict,
}

/// What a clause asks for.
pub(crate) fn demand_of(clause: &[Lit], blocked: &VarSet, trail: &Trail) -> Look
    requires clause { IsTrue (is_clause (length blocked.now) clause.now) }
    requires size { length trail.now.places ≡ 2 * length blocked.now + 2 }
    ensures { IsLook trail.now (crossed_out (is_in blocked.now) clause.now) result }
{
    let mut look = Look::Nothing;
    for l in clause {
        if !blocked.has(l.var()) {
            match look_further(look, *l, trail) {
                Some(next) => look = next,
                None => return Look::Nothing,
            }
        }
    }
    look
}

// With one more literal, where the clause may still ask for something.
fn look_further(so_far: Look, l: Lit, trail: &Trail) -> Option<Look>
    requires place { rank_of l < length trail.now.places }
    requires other { rank_of (complement l) < length trail.now.places }
    ensures { (c : List ℤ) → IsLookSoFar trail.now c so_far → IsNext trail.now (c ++ l ∷ []) result }
{
    if trail.is_true(l) {
        return None;
    }
    if trail.is_true(l.negated()) {
        return match so_far {
            Look::Truth(open) => Some(Look::Truth(open)),
            _ => Some(Look::Conflict),
        };
    }
    match so_far {
        Look::Truth(_) => None,
        _ => Some(Look::Truth(l)),
    }
}
