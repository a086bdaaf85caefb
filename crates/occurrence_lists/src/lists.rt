//! For each literal the positions of the clauses that contain it.
//!
//! The lists stand one after another in one vector, and counting finds first where each begins (as in sorting by
//! counting; Knuth, "The Art of Computer Programming", volume 3, 1973): no list has a vector of its own.
ghost use Rattle.std.specs.Prelude.{◌≡◌, ◌++◌, ◌+◌, ◌*◌, ◌<◌, ◌≤◌, [], ℕ, length, map, slice_index, slice_index_or};
ghost use Rattle.std.specs.Prelude.{IfOk, IsTrue};
ghost use Rattle.lk_model.specs.Held.Flat.{AreEnds, begin_of};
ghost use Rattle.lk_model.specs.Formulas.Literal.{rank_of, is_distinct};
ghost use Rattle.occurrence_lists.specs.Occurrences.{AreOccurrences};
ghost use Rattle.occurrence_lists.specs.Parts.{cut};
ghost use Rattle.occurrence_lists.specs.Noting.{HaveRoom, NotesClause};

use crate::counting::count_literals;
use crate::filling::Filling;
use lk_model::{Formula, Lit, LitTable, OutOfMemory};
use std::alloc::Global;
use std::marker::Model;

/// For each literal over the variables of a formula the positions of the clauses that contain it, ascending.
/// Contracts see a list of these lists, in which that of a literal stands at its rank.
#[derive(Drop)]
pub struct OccurrenceLists {
    positions: Vec<u32>,
    /// Where the list at each rank ends.
    ends: Vec<u32>,
}

impl Model for OccurrenceLists {
    ghost use Rattle.std.specs.Prelude.{ℕ, List, length};
    ghost use Rattle.lk_model.specs.Held.Flat.{AreEnds};
    ghost use Rattle.occurrence_lists.specs.Parts.{cut};

    ghost Value = { List (List ℕ) };

    ghost view = { λ t. cut 0 t.positions.items t.ends.items };

    ghost invariant = { λ t. AreEnds 0 t.ends.items (length t.positions.items) };
}

impl OccurrenceLists {
    /// The lists of a formula. The work is meant to grow with the number of literals; no clause says so.
    pub fn new(alloc: Global, f: &Formula) -> Result<OccurrenceLists, OutOfMemory>
        ensures { IfOk result (AreOccurrences f.now) }
    {
        let counts = count_literals(alloc, f)?;
        let mut lists = Filling::new(alloc, counts.as_slice())?;
        for i in 0..f.len() {
            note_clause(&mut lists, f.clause(i + 1), i + 1);
        }
        Ok(lists.finish())
    }

    /// The positions of the clauses that contain the literal, ascending.
    pub fn positions(&self, l: Lit) -> &[u32]
        requires { rank_of l < length self.now }
        ensures { result.now ≡ slice_index_or self.now (rank_of l) [] }
    {
        list_at(&self.positions, &self.ends, l.rank())
    }

    /// The positions of the clauses that contain the variable, and then of those that contain its complement: each
    /// of both ascending, so that one that contains both stands twice.
    pub fn positions_of_variable(&self, v: u32) -> &[u32]
        requires { 2 * v + 1 < length self.now }
        ensures { result.now ≡ slice_index_or self.now (2 * v) [] ++ slice_index_or self.now (2 * v + 1) [] }
    {
        two_lists_at(&self.positions, &self.ends, 2 * v as usize)
    }

    /// How many clauses contain each literal.
    pub fn counts(&self, alloc: Global) -> Result<LitTable<u32>, OutOfMemory>
        ensures { IfOk result (λ t. t ≡ map (λ ps. length ps) self.now) }
    {
        let mut counts = Vec::with_capacity(alloc, self.ends.len())?;
        for rank in 0..self.ends.len() {
            counts.push(count_at(&self.positions, &self.ends, rank))?;
        }
        Ok(LitTable::from_vec(counts))
    }

    /// The lists that stand in a vector one after another, by where they end. It takes no memory.
    pub(crate) fn from_parts(positions: Vec<u32>, ends: Vec<u32>) -> OccurrenceLists
        requires { AreEnds 0 ends.items (length positions.items) }
        ensures { result ≡ cut 0 positions.items ends.items }
    {
        OccurrenceLists { positions, ends }
    }
}

/// Notes a position at each literal of its clause.
fn note_clause(lists: &mut Filling, clause: &[Lit], position: u32)
    requires clause { IsTrue (is_distinct clause.now) }
    requires room { HaveRoom clause.now lists.old }
    ensures sizes { lists.new.sizes ≡ lists.old.sizes }
    ensures noted { NotesClause clause.now position lists.old.lists lists.new.lists }
{
    for l in clause {
        lists.place(l.rank(), position);
    }
}

/// One of the lists that stand one after another.
fn list_at<'a>(positions: &'a [u32], ends: &[u32], k: usize) -> &'a [u32]
    requires ends { AreEnds 0 ends.now (length positions.now) }
    requires place { k < length ends.now }
    ensures { result.now ≡ slice_index_or (cut 0 positions.now ends.now) k [] }
{
    let begin = begin_at(ends, k, positions.len());
    &positions[begin as usize..ends[k] as usize]
}

/// A list and the next one.
fn two_lists_at<'a>(positions: &'a [u32], ends: &[u32], k: usize) -> &'a [u32]
    requires ends { AreEnds 0 ends.now (length positions.now) }
    requires place { k + 1 < length ends.now }
    ensures { result.now ≡ slice_index_or (cut 0 positions.now ends.now) k [] ++ slice_index_or
        (cut 0 positions.now ends.now) (k + 1) [] }
{
    let begin = begin_at(ends, k, positions.len());
    let end = next_end(ends, k, positions.len());
    &positions[begin as usize..end as usize]
}

/// How long one of the lists is.
fn count_at(positions: &[u32], ends: &[u32], k: usize) -> u32
    requires ends { AreEnds 0 ends.now (length positions.now) }
    requires place { k < length ends.now }
    ensures { result ≡ length (slice_index_or (cut 0 positions.now ends.now) k []) }
{
    ends[k] - begin_at(ends, k, positions.len())
}

/// Where one of the lists begins.
fn begin_at(ends: &[u32], k: usize, stop: usize) -> u32
    requires ends { AreEnds 0 ends.now stop }
    requires place { k < length ends.now }
    ensures value { result ≡ begin_of 0 ends.now k }
    ensures order { result ≤ slice_index ends.now k }
    ensures within { slice_index ends.now k ≤ stop }
{
    if k == 0 { 0 } else { ends[k - 1] }
}

/// Where the list after one of the lists ends.
fn next_end(ends: &[u32], k: usize, stop: usize) -> u32
    requires ends { AreEnds 0 ends.now stop }
    requires place { k + 1 < length ends.now }
    ensures value { result ≡ slice_index ends.now (k + 1) }
    ensures order { slice_index ends.now k ≤ result }
    ensures within { result ≤ stop }
{
    ends[k + 1]
}
