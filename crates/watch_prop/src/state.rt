//! Unit propagation with two watched literals in each clause.
//!
//! A clause with two literals that are not false forces nothing. So it watches two such literals, and is given what it
//! asks for when one of them becomes false: another literal to watch, the truth of the other one, or the news that it
//! is false. Nothing has to be undone when the trail gets shorter (Moskewicz, Madigan, Zhao, Zhang and Malik, "Chaff:
//! Engineering an Efficient SAT Solver", 2001).
//!
//! Here a clause watches nothing, and waits, until two literals of it are found that are not false. A waiting clause
//! that was looked at has a true literal, and is looked at again where the level of that look is taken back. So clauses
//! may be added whatever is true, one literal is no special case, and no list is ever searched for a clause: one that
//! comes goes to the end, and one that leaves is at hand, since the list is being walked.
ghost use Rattle.std.specs.Prelude.{◌≡◌, ◌≢◌, ℕ, ◌+◌, ◌-◌, ◌<◌, length, slice_index_or, IsTrue};
ghost use Rattle.std.specs.List.{swap_remove};
ghost use Rattle.lk_model.specs.Formulas.Literal.{contains, rank_of, is_literal};
ghost use Rattle.watch_prop.specs.Propagation.{IsAnswered};
ghost use Rattle.watch_prop.specs.Watchers.{places, row_of, watchers, count_of};
ghost use Rattle.watch_prop.specs.Linked.{clause_at_place, watch_at};
ghost use Rattle.watch_prop.specs.Watch.{other_of};
ghost use Rattle.watch_prop.specs.States.{propagation_of, unseen, next_waiting, IsState, Leads, IsAtHead, Settles};
ghost use Rattle.watch_prop.specs.States.{ListsNext, Passes};

use crate::clauses::Clauses;
use crate::entry::Propagated;
use crate::trail::Trail;
use crate::watch::{Demand, Found, Watch, demand_of, find};
use crate::watcher_lists::{Watcher, WatcherLists};
use lk_model::Lit;

// Clauses of more literals than this are long. Short ones are faster searched from the front each time.
const LONG: usize = 32;

/// What is known of clauses under a trail.
#[derive(Drop)]
pub(crate) struct State {
    /// For each clause that does not wait the literals that it watches.
    pub watches: Vec<Watch>,
    /// For each clause the place in it of the literal that came to be watched last, if the clause is long: there the
    /// next search begins. It is a matter of speed alone where that is.
    pub saved: Vec<u32>,
    /// For each literal its watchers.
    pub lists: WatcherLists,
    /// The clauses that watch nothing, since they had no two literals that are not false.
    pub waiting: Vec<u32>,
    /// This many of the clauses that wait, the first ones, have a true literal.
    pub satisfied: usize,
    /// This many literals of the trail were passed on to the watchers of their complements.
    pub head: usize,
    /// For each level below the present one, how many clauses waited when the next one was opened.
    pub marks: Vec<usize>,
}

impl State {
    // The other one of the two literals that a clause watches.
    fn other(&self, place: usize, l: Lit) -> Lit
        requires { place < length self.now.watches.items }
        ensures { result ≡ other_of (watch_at self.now.watches.items place) l }
    {
        self.watches[place].other(l)
    }

    // Where in a clause of `len` literals the next search begins.
    fn search_from(&self, place: usize, len: usize) -> usize {
        if len > LONG {
            self.saved.get(place).copied().unwrap_or(0) as usize
        } else {
            0
        }
    }

    // The next search of a long clause begins where the last one ended.
    fn save(&mut self, place: usize, len: usize, found: usize)
        ensures { self.new ≡ record self.old { saved = self.new.saved } }
    {
        let Ok(found) = u32::try_from(found) else {
            return;
        };
        if len > LONG {
            if let Some(saved) = self.saved.get_mut(place) {
                *saved = found;
            }
        }
    }

    // The next clause that waits comes to watch two literals.
    fn list_next(&mut self, watch: Watch)
        requires next { self.old.satisfied < length self.old.waiting.items }
        requires place { next_waiting self.old < length self.old.watches.items }
        requires first { rank_of watch.first < length self.old.lists.lists }
        requires second { rank_of watch.second < length self.old.lists.lists }
        requires apart { watch.second ≢ watch.first }
        requires first_room { length
            (watchers self.old.lists.lists watch.first) < count_of self.old.lists.counts watch.first }
        requires second_room { length
            (watchers self.old.lists.lists watch.second) < count_of self.old.lists.counts watch.second }
        ensures { ListsNext self.old watch self.new }
    {
        let place = self.waiting.swap_remove(self.satisfied);
        let Watch { first, second } = watch;
        self.lists.push(first, place, second);
        self.lists.push(second, place, first);
        self.watches[place as usize] = Watch { first, second };
    }
}

// Whether a clause still watches the literal, or is false.
#[derive(Clone, Copy)]
enum Settled {
    Stays,
    Moves,
    IsFalse,
}

/// Propagates until nothing more is forced or a clause is false.
pub(crate) fn propagate(clauses: &Clauses, trail: &mut Trail, state: &mut State) -> Propagated
    requires { IsState clauses.now trail.old state.old }
    ensures leads { Leads clauses.now trail.old trail.new state.old state.new }
    ensures answer { IsAnswered (propagation_of clauses.now trail.new) result }
    ensures done { Passes clauses.now trail.new result ((unseen state.new ≡ 0) ×
        (state.new.head ≡ length trail.new.entries)) }
{
    match look_at_waiting(clauses, trail, state) {
        Propagated::Quiet => follow_trail(clauses, trail, state),
        conflict => conflict,
    }
}

// Looks at the clauses that wait, one after another.
fn look_at_waiting(clauses: &Clauses, trail: &mut Trail, state: &mut State) -> Propagated
    requires { IsState clauses.now trail.old state.old }
    ensures leads { Leads clauses.now trail.old trail.new state.old state.new }
    ensures done { Passes clauses.now trail.new result (unseen state.new ≡ 0) }
{
    'clauses: while state.satisfied < state.waiting.len() {
        if let Propagated::Conflict(number) = look_at_next(clauses, trail, state) {
            return Propagated::Conflict(number);
        }
    }
    Propagated::Quiet
}

// Looks at the next clause that waits: it comes to watch two literals that are not false; or there is just one, which
// becomes true; or it is false.
fn look_at_next(clauses: &Clauses, trail: &mut Trail, state: &mut State) -> Propagated
    requires state { IsState clauses.now trail.old state.old }
    requires more { state.old.satisfied < length state.old.waiting.items }
    ensures leads { Leads clauses.now trail.old trail.new state.old state.new }
    ensures done { Passes clauses.now trail.new result (unseen state.new + 1 ≡ unseen state.old) }
{
    let place = state.waiting[state.satisfied] as usize;
    match find(trail, clauses.lits(place)) {
        Found::AllFalse => Propagated::Conflict(clauses.number(place)),
        Found::Two(watch) => {
            state.list_next(watch);
            Propagated::Quiet
        }
        Found::One(l) => {
            trail.force(l, clauses.number(place));
            state.satisfied += 1;
            Propagated::Quiet
        }
    }
}

// Passes the literals of the trail on, one after another.
fn follow_trail(clauses: &Clauses, trail: &mut Trail, state: &mut State) -> Propagated
    requires { IsState clauses.now trail.old state.old }
    ensures leads { Leads clauses.now trail.old trail.new state.old state.new }
    ensures unseen { unseen state.new ≡ unseen state.old }
    ensures done { Passes clauses.now trail.new result (state.new.head ≡ length trail.new.entries) }
{
    'literals: while state.head < trail.len() {
        if let Propagated::Conflict(number) = pass_on(clauses, trail, state) {
            return Propagated::Conflict(number);
        }
    }
    Propagated::Quiet
}

// Passes the next literal on to the watchers of its complement.
fn pass_on(clauses: &Clauses, trail: &mut Trail, state: &mut State) -> Propagated
    requires state { IsState clauses.now trail.old state.old }
    requires more { state.old.head < length trail.old.entries }
    ensures leads { Leads clauses.now trail.old trail.new state.old state.new }
    ensures unseen { unseen state.new ≡ unseen state.old }
    ensures done { Passes clauses.now trail.new result (state.new.head ≡ state.old.head + 1) }
{
    let l = trail.lits()[state.head].negated();
    let mut at = 0;
    'watchers: while at < state.lists.of(l).len() {
        let watcher = state.lists.of(l)[at];
        let Watcher { place, blocker } = watcher;
        let place = place as usize;
        match settle(clauses, trail, state, place, blocker, l, at) {
            Settled::Stays => at += 1,
            Settled::Moves => {}
            Settled::IsFalse => return Propagated::Conflict(clauses.number(place)),
        }
    }
    state.head += 1;
    Propagated::Quiet
}

// Gives a clause what it asks for when a literal that it watches is false. Where its blocker is true it asks for
// nothing.
fn settle(
    clauses: &Clauses,
    trail: &mut Trail,
    state: &mut State,
    place: usize,
    blocker: Lit,
    l: Lit,
    at: usize,
) -> Settled
    requires state { IsState clauses.now trail.old state.old }
    requires place { place < length clauses.now }
    requires blocker { IsTrue (contains (clause_at_place clauses.now place).lits blocker) }
    requires within { at < length (watchers state.old.lists.lists l) }
    requires stands { slice_index_or (watchers state.old.lists.lists l) at 0 ≡ place }
    requires row { places (row_of state.old.lists.rows l) ≡ watchers state.old.lists.lists l }
    requires head { IsAtHead trail.old.entries state.old.head l }
    requires literal { IsTrue (is_literal trail.old.vars l) }
    ensures leads { Leads clauses.now trail.old trail.new state.old state.new }
    ensures settles { Settles clauses.now trail.old trail.new state.old state.new place l at result }
{
    if trail.is_true(blocker) {
        return Settled::Stays;
    }
    let other = state.other(place, l);
    if trail.is_true(other) {
        state.lists.block(l, at, other);
        return Settled::Stays;
    }
    let lits = clauses.lits(place);
    let begin = state.search_from(place, lits.len());
    match demand_of(trail, lits, other, begin) {
        Demand::Move(to, found) => {
            state.watches[place] = Watch {
                first: to,
                second: other,
            };
            state.lists.shift(l, at, to, other);
            state.save(place, lits.len(), found);
            Settled::Moves
        }
        Demand::Truth(l) => {
            trail.force(l, clauses.number(place));
            Settled::Stays
        }
        Demand::Conflict => Settled::IsFalse,
    }
}
