//! Clauses by their numbers.
ghost use Rattle.std.specs.Prelude.{◌≡◌, ◌<◌, length, IsSome, IsTrue};
ghost use Rattle.watch_prop.specs.Trail.{clause_numbered};
ghost use Rattle.watch_prop.specs.Linked.{clause_at_place};

use crate::clauses::Clauses;

/// The place of the clause of a number. It is counted back from the last clause, which finds those that came under
/// numbers one after another. Bisection finds it where the numbers ascend; if it does not, all clauses are gone
/// through.
pub(crate) fn place_of(clauses: &Clauses, number: u64) -> usize
    requires { IsSome (clause_numbered clauses.now number) }
    ensures within { result < length clauses.now }
    ensures number { (clause_at_place clauses.now result).number ≡ number }
{
    let near = counted_back(clauses, number);
    if stands_at(clauses, near, number) {
        return near;
    }
    let place = bisected(clauses, number);
    if stands_at(clauses, place, number) {
        place
    } else {
        searched(clauses, number)
    }
}

// Whether the clause of a number stands at a place.
fn stands_at(clauses: &Clauses, place: usize, number: u64) -> bool
    ensures within { IsTrue result → place < length clauses.now }
    ensures number { IsTrue result → (clause_at_place clauses.now place).number ≡ number }
{
    place < clauses.len() && clauses.number(place) == number
}

// Where the numbers rise by one up to the last, the place of the number. It is a matter of speed alone that it is.
fn counted_back(clauses: &Clauses, number: u64) -> usize {
    let len = clauses.len();
    if len == 0 {
        return 0;
    }
    let last = clauses.number(len - 1);
    if number <= last && last - number < len as u64 {
        len - 1 - (last - number) as usize
    } else {
        0
    }
}

// Where the numbers ascend, the place of the first one that is not below the number. It is a matter of speed alone
// that it is.
fn bisected(clauses: &Clauses, number: u64) -> usize {
    let mut low = 0;
    let mut high = clauses.len();
    'halves: while low < high {
        let middle = low + (high - low) / 2;
        if clauses.number(middle) < number {
            low = middle + 1;
        } else {
            high = middle;
        }
    }
    low
}

// The first place of the number.
fn searched(clauses: &Clauses, number: u64) -> usize
    requires { IsSome (clause_numbered clauses.now number) }
    ensures within { result < length clauses.now }
    ensures number { (clause_at_place clauses.now result).number ≡ number }
{
    for place in 0..clauses.len() {
        if clauses.number(place) == number {
            return place;
        }
    }
    0
}
