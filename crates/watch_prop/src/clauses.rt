//! Clauses with their numbers, one after another.
ghost use Rattle.std.specs.Prelude.{◌≡◌, ◌<◌, ◌≤◌, ◌++◌, ◌∷◌, [], length, take, slice_index, slice_index_or, OnOk};
ghost use Rattle.std.specs.Prelude.{OnErr};
ghost use Rattle.lk_model.specs.Held.Flat.{cut, AreEnds, begin_of};
ghost use Rattle.watch_prop.specs.Linked.{clause_at_place};

use lk_model::{Lit, OutOfMemory};
use std::alloc::Global;
use std::marker::Model;

/// The numbers of clauses, and their literals one after another, with the place where those of each end: clauses that
/// came one after another lie close together.
#[derive(Drop)]
pub(crate) struct Clauses {
    numbers: Vec<u64>,
    lits: Vec<Lit>,
    ends: Vec<usize>,
}

impl Model for Clauses {
    ghost use Rattle.std.specs.Prelude.{List};
    ghost use Rattle.watch_prop.specs.declared.entry.NumberedClause.{NumberedClause};

    ghost Value = { List NumberedClause };

    ghost use Rattle.watch_prop.specs.HeldClauses.{clauses_seen, AreFlat};

    ghost view = { clauses_seen };

    ghost invariant = { AreFlat };
}

impl Clauses {
    /// No clause.
    pub fn new(alloc: Global) -> Clauses
        ensures { result ≡ [] }
    {
        Clauses {
            numbers: Vec::new(alloc),
            lits: Vec::new(alloc),
            ends: Vec::new(alloc),
        }
    }

    /// How many there are.
    pub fn len(&self) -> usize
        ensures { result ≡ length self.now }
    {
        self.numbers.len()
    }

    /// The number of the clause at a place.
    pub fn number(&self, place: usize) -> u64
        requires { place < length self.now }
        ensures { result ≡ (clause_at_place self.now place).number }
    {
        self.numbers[place]
    }

    /// The literals of the clause at a place.
    pub fn lits(&self, place: usize) -> &[Lit]
        requires { place < length self.now }
        ensures { result.now ≡ (clause_at_place self.now place).lits }
    {
        list_at(&self.lits, &self.ends, place)
    }

    /// Appends a clause. Without memory for it all stays as it is.
    pub fn push(&mut self, number: u64, lits: &[Lit]) -> Result<(), OutOfMemory>
        ensures ok { OnOk result (self.new ≡ self.old ++ (record { number = number; lits = lits.now }) ∷ []) }
        ensures err { OnErr result (self.new ≡ self.old) }
    {
        self.numbers.reserve(1)?;
        self.ends.reserve(1)?;
        self.lits.extend_from_slice(lits)?;
        self.numbers.push_reserved(number);
        self.ends.push_reserved(self.lits.len());
        Ok(())
    }

    /// Keeps the first `len` clauses, which are fewer than there are.
    pub fn truncate(&mut self, len: usize)
        requires { len < length self.old }
        ensures { self.new ≡ take len self.old }
    {
        let begin = begin_at(&self.ends, len, self.lits.len());
        self.numbers.truncate(len);
        self.lits.truncate(begin);
        self.ends.truncate(len);
    }
}

// One of the lists that are kept one after another.
fn list_at<'a>(lits: &'a [Lit], ends: &[usize], k: usize) -> &'a [Lit]
    requires ends { AreEnds 0 ends.now (length lits.now) }
    requires place { k < length ends.now }
    ensures { result.now ≡ slice_index_or (cut 0 lits.now ends.now) k [] }
{
    let begin = begin_at(ends, k, lits.len());
    &lits[begin..ends[k]]
}

// Where one of the lists begins.
fn begin_at(ends: &[usize], k: usize, stop: usize) -> usize
    requires ends { AreEnds 0 ends.now stop }
    requires place { k < length ends.now }
    ensures value { result ≡ begin_of 0 ends.now k }
    ensures order { result ≤ slice_index ends.now k }
    ensures within { slice_index ends.now k ≤ stop }
{
    if k == 0 { 0 } else { ends[k - 1] }
}
