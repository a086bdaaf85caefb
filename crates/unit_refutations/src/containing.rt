//! Crossed clauses that another clause contains.
ghost use Rattle.std.specs.Prelude.{◌≡◌, length, IsTrue};
ghost use Rattle.std.specs.List.{list_all};
ghost use Rattle.lk_model.specs.Formulas.Literal.{contains, is_clause, is_literal};
ghost use Rattle.lk_model.specs.Held.VariableSets.{is_in, IsCrossed};
ghost use Rattle.occurrence_lists.specs.Occurrences.{AreOccurrences};
ghost use Rattle.unit_refutations.specs.Contained.{contains_none, is_within_but, none_within_but};
ghost use Rattle.unit_refutations.specs.Standing.{are_between};

use lk_model::{Crossed, Lit, VarSet};
use occurrence_lists::OccurrenceLists;

/// Whether a clause contains no crossed clause of the part that is not empty. Only clauses that share a literal with it
/// are looked at; it may return false though it contains none, because of a clause outside the part.
pub(crate) fn contains_none(lists: &OccurrenceLists, over: &Crossed, clause: &[Lit]) -> bool
    requires crossed { IsCrossed over.now }
    requires lists { AreOccurrences over.now.formula.now lists.now }
    requires literals { IsTrue (list_all (is_literal over.now.formula.now.vars) clause.now) }
    ensures { IsTrue result → IsTrue (contains_none over.now clause.now) }
{
    for l in clause {
        if !none_within(over, lists.positions(*l), clause) {
            return false;
        }
    }
    true
}

// Whether no clause at the positions has all its literals in another clause, but for those of blocked variables.
fn none_within(over: &Crossed, positions: &[u32], clause: &[Lit]) -> bool
    requires crossed { IsCrossed over.now }
    requires positions { IsTrue (are_between over.now.formula.now positions.now) }
    ensures { result ≡ none_within_but over.now.formula.now (is_in over.now.blocked.now) clause.now positions.now }
{
    for position in positions {
        if is_within_but(over.formula.clause(*position), over.blocked, clause) {
            return false;
        }
    }
    true
}

// Whether each literal of a clause stands in another one, or its variable is blocked.
fn is_within_but(clause: &[Lit], blocked: &VarSet, other: &[Lit]) -> bool
    requires { IsTrue (is_clause (length blocked.now) clause.now) }
    ensures { result ≡ is_within_but (is_in blocked.now) clause.now other.now }
{
    clause
        .iter()
        .all(|l| blocked.has(l.var()) || stands_in(other, *l))
}

// Whether a literal stands in a clause.
fn stands_in(clause: &[Lit], l: Lit) -> bool
    ensures { result ≡ contains clause.now l }
{
    clause.contains(&l)
}
