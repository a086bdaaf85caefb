//! The watchers of a literal: the clauses that watch it, each with a literal to look at first.
ghost use Rattle.std.specs.Prelude.{◌≡◌, ◌≢◌, ℕ, ◌+◌, ◌*◌, ◌^◌, ◌<◌, ◌≤◌, [], length, replicate, slice_index_or};
ghost use Rattle.std.specs.Prelude.{nat_lt, ℤ, Vec, vec_len, vec_capacity, All, IfOk, OnOk, OnErr, IsTrue};
ghost use Rattle.std.specs.List.{list_all};
ghost use Rattle.lk_model.specs.Formulas.Literal.{contains, is_distinct, rank_of};
ghost use Rattle.watch_prop.specs.Watchers.{row_of, places, watchers, count_of, with_watcher, with_row, with_counted};
ghost use Rattle.watch_prop.specs.Linked.{moved, moved_rows, with_blocker, blocked_rows};
ghost use Rattle.watch_prop.specs.declared.watcher_lists.Watcher.{Watcher};
ghost use Rattle.watch_prop.specs.HeldWatchers.{watcher_rows, HasRoom};

use lk_model::{Lit, LitTable, OutOfMemory};
use std::alloc::Global;
use std::marker::Model;

/// A clause that watches a literal, by its place, and the blocker: a literal of that clause. Where the blocker is true,
/// the clause forces nothing and need not be looked at.
#[derive(Clone, Copy)]
pub(crate) struct Watcher {
    pub place: u32,
    pub blocker: Lit,
}

/// For each literal its watchers, and how many clauses have it. That many may come to watch it, and there is room for
/// that many.
#[derive(Drop)]
pub(crate) struct WatcherLists {
    lists: LitTable<Vec<Watcher>>,
    counts: LitTable<usize>,
}

impl Model for WatcherLists {
    ghost use Rattle.watch_prop.specs.Watchers.{Watchers};

    ghost Value = { Watchers };

    ghost use Rattle.watch_prop.specs.HeldWatchers.{watchers_seen, HaveRoom};

    ghost view = { watchers_seen };

    ghost invariant = { HaveRoom };
}

impl WatcherLists {
    /// The lists without a clause, over the variables from 1 to n. Each is made once, with room for as many clauses as
    /// are expected to have its literal; more may come.
    pub fn new(alloc: Global, n: u32, expected: &LitTable<u32>) -> Result<WatcherLists, OutOfMemory>
        requires few { n ≤ 1000000 }
        requires expected { length expected.now ≡ 2 * n + 2 }
        ensures lists { IfOk result (λ w. w.lists ≡ replicate (2 * n + 2) []) }
        ensures rows { IfOk result (λ w. w.rows ≡ replicate (2 * n + 2) []) }
        ensures counts { IfOk result (λ w. w.counts ≡ replicate (2 * n + 2) 0) }
    {
        Ok(WatcherLists {
            lists: empty_lists(alloc, expected)?,
            counts: LitTable::new(alloc, n, 0)?,
        })
    }

    /// The watchers of a literal.
    pub fn of(&self, l: Lit) -> &[Watcher]
        requires { rank_of l < length self.now.lists }
        ensures row { result.now ≡ row_of self.now.rows l }
        ensures places { places result.now ≡ watchers self.now.lists l }
    {
        self.lists[l].as_slice()
    }

    /// Counts one clause more, which has these literals, and makes room for it. Without memory for that all stays as
    /// it is.
    pub fn count(&mut self, lits: &[Lit]) -> Result<(), OutOfMemory>
        requires ranks { IsTrue (list_all (λ l. nat_lt (rank_of l) (length self.old.lists)) lits.now) }
        requires distinct { IsTrue (is_distinct lits.now) }
        ensures lists { self.new.lists ≡ self.old.lists }
        ensures rows { self.new.rows ≡ self.old.rows }
        ensures counts { OnOk result (self.new.counts ≡ with_counted self.old.counts lits.now) }
        ensures err { OnErr result (self.new ≡ self.old) }
    {
        make_room(&mut self.lists, &self.counts, lits)?;
        count_literals(&mut self.counts, lits);
        Ok(())
    }

    /// Puts a clause at the end of a literal's list.
    pub fn push(&mut self, l: Lit, place: u32, blocker: Lit)
        requires rank { rank_of l < length self.old.lists }
        requires room { length (watchers self.old.lists l) < count_of self.old.counts l }
        ensures lists { self.new.lists ≡ with_watcher self.old.lists l place }
        ensures rows { self.new.rows ≡ with_row self.old.rows l (record { place = place; blocker = blocker }) }
        ensures counts { self.new.counts ≡ self.old.counts }
    {
        self.lists[l].push_reserved(Watcher { place, blocker });
    }

    /// Gives the clause that stands at a place of a literal's list another blocker.
    pub fn block(&mut self, l: Lit, at: usize, blocker: Lit)
        requires rank { rank_of l < length self.old.lists }
        requires within { at < length (watchers self.old.lists l) }
        ensures lists { self.new.lists ≡ self.old.lists }
        ensures rows { self.new.rows ≡ blocked_rows self.old.rows l at blocker }
        ensures counts { self.new.counts ≡ self.old.counts }
    {
        set_blocker(&mut self.lists[l], at, blocker);
    }

    /// Moves the clause that stands at a place of one literal's list to that of another literal, with another blocker.
    pub fn shift(&mut self, l: Lit, at: usize, to: Lit, blocker: Lit)
        requires from { rank_of l < length self.old.lists }
        requires to { rank_of to < length self.old.lists }
        requires apart { l ≢ to }
        requires within { at < length (watchers self.old.lists l) }
        requires room { length (watchers self.old.lists to) < count_of self.old.counts to }
        ensures lists { self.new.lists ≡ moved self.old.lists l at to }
        ensures rows { self.new.rows ≡ moved_rows self.old.rows l at to blocker }
        ensures counts { self.new.counts ≡ self.old.counts }
    {
        let place = self.lists[l].swap_remove(at).place;
        self.lists[to].push_reserved(Watcher { place, blocker });
    }
}

// For each literal an empty list, with room for as many watchers as are expected.
fn empty_lists(
    alloc: Global,
    expected: &LitTable<u32>,
) -> Result<LitTable<Vec<Watcher>>, OutOfMemory>
    ensures size { IfOk result (λ t. length t ≡ length expected.now) }
    ensures empty { IfOk result (λ t. All (λ list. list.items ≡ []) t) }
{
    let capacities = expected.as_slice();
    let mut lists = Vec::with_capacity(alloc, capacities.len())?;
    for capacity in capacities {
        lists.push(Vec::with_capacity(alloc, *capacity as usize)?)?;
    }
    Ok(LitTable::from_vec(lists))
}

// Gives the watcher at a place another blocker.
fn set_blocker(list: &mut Vec<Watcher>, at: usize, blocker: Lit)
    requires { at < length list.old.items }
    ensures items { list.new.items ≡ with_blocker list.old.items at blocker }
    ensures len { vec_len list.new ≡ vec_len list.old }
    ensures capacity { vec_capacity list.new ≡ vec_capacity list.old }
{
    let place = list[at].place;
    list[at] = Watcher { place, blocker };
}

// Makes room for one clause more that has these literals.
fn make_room(
    lists: &mut LitTable<Vec<Watcher>>,
    counts: &LitTable<usize>,
    lits: &[Lit],
) -> Result<(), OutOfMemory>
    requires same { length lists.old ≡ length counts.now }
    requires ranks { IsTrue (list_all (λ l. nat_lt (rank_of l) (length lists.old)) lits.now) }
    requires room { (r : ℕ) (d : Vec Watcher Global) → r < length lists.old →
        HasRoom (slice_index_or lists.old r d) (slice_index_or counts.now r 0) }
    ensures rows { watcher_rows lists.new ≡ watcher_rows lists.old }
    ensures room { (r : ℕ) (d : Vec Watcher Global) → r < length lists.old →
        HasRoom (slice_index_or lists.new r d) (slice_index_or counts.now r 0) }
    ensures more { OnOk result ((l : ℤ) (d : Vec Watcher Global) → IsTrue (contains lits.now l) →
        count_of counts.now l < vec_capacity (slice_index_or lists.new (rank_of l) d)) }
{
    for l in lits {
        let more = counts[*l] - lists[*l].len() + 1;
        lists[*l].reserve(more)?;
    }
    Ok(())
}

// Counts one clause more that has these literals.
fn count_literals(counts: &mut LitTable<usize>, lits: &[Lit])
    requires ranks { IsTrue (list_all (λ l. nat_lt (rank_of l) (length counts.old)) lits.now) }
    requires distinct { IsTrue (is_distinct lits.now) }
    requires small { (l : ℤ) → IsTrue (contains lits.now l) → count_of counts.old l < 2 ^ 63 }
    ensures { counts.new ≡ with_counted counts.old lits.now }
{
    for l in lits {
        counts[*l] += 1;
    }
}
