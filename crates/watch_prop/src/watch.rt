//! The two literals that a clause watches, and what a clause asks for.
//!
//! Another literal is searched from the front of a short clause. Where variables are decided in their order, and the
//! literals of clauses ascend, those at the front seldom change, and what is found there is not false for long. A long
//! clause whose literals become false one after another would be gone through from its front each time, so it is
//! searched on from where the last search ended, and around (Gent, "Optimal Implementation of Watched Literals and More
//! General Techniques", 2013).
ghost use Rattle.std.specs.Prelude.{◌≡◌, ◌≤◌, length, IsTrue};
ghost use Rattle.std.specs.List.{list_all};
ghost use Rattle.lk_model.specs.Formulas.Literal.{is_literal};
ghost use Rattle.watch_prop.specs.Watch.{other_of, IsDemand, IsWatchChoice, IsFirstNotFalse, IsPlaceOfAnother};

use crate::trail::Trail;
use lk_model::Lit;

/// Two literals of a clause.
#[derive(Clone, Copy)]
pub(crate) struct Watch {
    pub first: Lit,
    pub second: Lit,
}

impl Watch {
    /// The other one of the two.
    pub fn other(self, l: Lit) -> Lit
        ensures { result ≡ other_of self l }
    {
        let Watch { first, second } = self;
        if first == l { second } else { first }
    }
}

/// Which literals of a clause are not false.
#[derive(Clone, Copy)]
pub(crate) enum Found {
    /// None.
    AllFalse,
    /// Just this one.
    One(Lit),
    /// These two, and perhaps others.
    Two(Watch),
}

/// Which literals of a clause are not false.
pub(crate) fn find(trail: &Trail, lits: &[Lit]) -> Found
    requires { IsTrue (list_all (is_literal trail.now.vars) lits.now) }
    ensures { IsWatchChoice trail.now.entries lits.now result }
{
    let Some(one) = first_not_false(trail, lits) else {
        return Found::AllFalse
    };
    let l = lits[one];
    match place_of_another(trail, lits, l, one + 1, lits.len()) {
        Some(two) => Found::Two(Watch {
            first: l,
            second: lits[two],
        }),
        None => Found::One(l),
    }
}

/// What a clause asks for when a literal that it watches is false and the other one is not true.
#[derive(Clone, Copy)]
pub(crate) enum Demand {
    /// To watch another literal instead of the false one, with the place at which it stands.
    Move(Lit, usize),
    /// That its only unset literal becomes true.
    Truth(Lit),
    /// What can't be: each of its literals is false.
    Conflict,
}

/// What a clause asks for of which one watched literal is false and the other one is not true. Another literal is
/// searched from a place on.
pub(crate) fn demand_of(trail: &Trail, lits: &[Lit], other: Lit, begin: usize) -> Demand
    requires lits { IsTrue (list_all (is_literal trail.now.vars) lits.now) }
    requires other { IsTrue (is_literal trail.now.vars other) }
    ensures { IsDemand trail.now.entries lits.now other result }
{
    match place_around(trail, lits, other, begin) {
        Some(at) => Demand::Move(lits[at], at),
        None if trail.is_false(other) => Demand::Conflict,
        None => Demand::Truth(other),
    }
}

// A place of a literal that is not false, but not that of a given one, searched from one place to the end, and then
// from the front to that place.
fn place_around(trail: &Trail, lits: &[Lit], but: Lit, begin: usize) -> Option<usize>
    requires { IsTrue (list_all (is_literal trail.now.vars) lits.now) }
    ensures { IsPlaceOfAnother trail.now.entries lits.now but 0 (length lits.now) result }
{
    let begin = if begin < lits.len() { begin } else { 0 };
    match place_of_another(trail, lits, but, begin, lits.len()) {
        Some(at) => Some(at),
        None => place_of_another(trail, lits, but, 0, begin),
    }
}

// The first place between two of a literal that is not false, but not that of a given one.
fn place_of_another(
    trail: &Trail,
    lits: &[Lit],
    but: Lit,
    begin: usize,
    end: usize,
) -> Option<usize>
    requires lits { IsTrue (list_all (is_literal trail.now.vars) lits.now) }
    requires end { end ≤ length lits.now }
    ensures { IsPlaceOfAnother trail.now.entries lits.now but begin end result }
{
    for at in begin..end {
        if lits[at] != but && !trail.is_false(lits[at]) {
            return Some(at);
        }
    }
    None
}

// The first place of a literal that is not false.
fn first_not_false(trail: &Trail, lits: &[Lit]) -> Option<usize>
    requires { IsTrue (list_all (is_literal trail.now.vars) lits.now) }
    ensures { IsFirstNotFalse trail.now.entries lits.now result }
{
    for at in 0..lits.len() {
        if !trail.is_false(lits[at]) {
            return Some(at);
        }
    }
    None
}
