//! The clause that a chain has so far, by flags of literals.
//!
//! A turn takes one literal out and puts those of another clause in. With a flag for each literal that costs no more
//! than to read the other clause, however long the clause of the chain has become; clauses that are kept in order would
//! be merged at each turn. The literals that came are listed, so that the clause is found at the end, and the flags are
//! taken back, without a look at any other literal. The list is a small vector, of which the finished clause is made in
//! place. The flags stay from one chain to the next.
ghost use Rattle.std.specs.Prelude.{◌≡◌, ◌<◌, ℤ, ◌&&◌, ◌∷◌, ◌++◌, [], not, length, OnOk, IsTrue};
ghost use Rattle.std.specs.Ordering.{int_eq};
ghost use Rattle.lk_model.specs.Formulas.Literal.{complement, contains, rank_of, is_clause, is_same_set};
ghost use Rattle.lk_model.specs.Formulas.Crossed.{crossed_out};
ghost use Rattle.lk_model.specs.Held.VariableSets.{is_in};
ghost use Rattle.lk_model.specs.Chains.Chain.{without};
ghost use Rattle.refutation_log.specs.Flagged.{is_flagged, flagged};
ghost use Rattle.refutation_log.specs.SameClause.{HaveSame};

use crate::work::Work;
use lk_model::{Lit, OutOfMemory, VarSet};
use smallvec::SmallVec;
use std::alloc::Global;
use std::marker::Model;
use std::mem;

/// A clause: a flag for each literal, by its rank, and the literals that came since it was empty. Contracts
/// see those of them whose flag is set.
#[derive(Drop)]
pub(crate) struct FlaggedClause {
    flags: Vec<bool>,
    came: SmallVec<Lit, 32>,
}

impl Model for FlaggedClause {
    ghost use Rattle.std.specs.Prelude.{List, ℤ};
    ghost use Rattle.refutation_log.specs.Flagged.{flagged, HaveCome};

    ghost Value = { List ℤ };

    ghost view = { λ c. flagged c.flags.items c.came.items };

    ghost invariant = { λ c. HaveCome c.flags.items c.came.items };
}

impl FlaggedClause {
    /// The empty clause. It takes no memory.
    pub fn new(alloc: Global) -> FlaggedClause
        ensures { result ≡ [] }
    {
        FlaggedClause {
            flags: Vec::new(alloc),
            came: SmallVec::new(alloc),
        }
    }

    /// Makes it empty.
    pub fn clear(&mut self)
        ensures { self.new ≡ [] }
    {
        unflag_all(&mut self.flags, self.came.as_slice());
        self.came.clear();
    }

    /// Whether it contains a literal.
    pub fn has(&self, l: Lit) -> bool
        ensures { result ≡ contains self.now l }
    {
        is_flagged(&self.flags, l)
    }

    /// Puts the literals of a clause in.
    pub fn put_all(&mut self, clause: &[Lit]) -> Result<(), OutOfMemory>
        ensures { OnOk result (HaveSame self.new (self.old ++ clause.now)) }
    {
        for l in clause {
            self.put(*l)?;
        }
        Ok(())
    }

    // Puts the literals of a clause in, but for one.
    fn put_others(&mut self, clause: &[Lit], but: Lit) -> Result<(), OutOfMemory>
        ensures { OnOk result (HaveSame self.new (self.old ++ without clause.now but)) }
    {
        for l in clause {
            if *l != but {
                self.put(*l)?;
            }
        }
        Ok(())
    }

    /// Makes it its resolvent on `l` with a clause, which takes `l` out and puts the literals of the other one
    /// in, but for the complement of `l`.
    pub fn resolve(&mut self, l: Lit, other: &[Lit]) -> Result<(), OutOfMemory>
        ensures { OnOk result (IsTrue (is_same_set self.new (without self.old l ++ without other.now (complement l)))) }
    {
        self.take_out(l);
        self.put_others(other, l.negated())
    }

    /// Puts the literals of a clause in whose variables are not in a set.
    pub fn put_crossed(&mut self, clause: &[Lit], blocked: &VarSet) -> Result<(), OutOfMemory>
        requires { IsTrue (is_clause (length blocked.now) clause.now) }
        ensures { OnOk result (HaveSame self.new (self.old ++ crossed_out (is_in blocked.now) clause.now)) }
    {
        for l in clause {
            if !blocked.has(l.var()) {
                self.put(*l)?;
            }
        }
        Ok(())
    }

    // Puts such literals of a clause in, but for one.
    fn put_others_crossed(
        &mut self,
        clause: &[Lit],
        blocked: &VarSet,
        but: Lit,
    ) -> Result<(), OutOfMemory>
        requires { IsTrue (is_clause (length blocked.now) clause.now) }
        ensures { OnOk result
            (HaveSame self.new (self.old ++ without (crossed_out (is_in blocked.now) clause.now) but)) }
    {
        for l in clause {
            if *l != but && !blocked.has(l.var()) {
                self.put(*l)?;
            }
        }
        Ok(())
    }

    /// Makes it its resolvent on `l` with a clause without the literals whose variables are in a set.
    pub fn resolve_crossed(
        &mut self,
        l: Lit,
        clause: &[Lit],
        blocked: &VarSet,
    ) -> Result<(), OutOfMemory>
        requires { IsTrue (is_clause (length blocked.now) clause.now) }
        ensures { OnOk result
            (IsTrue (is_same_set self.new
            (without self.old l ++ without (crossed_out (is_in blocked.now) clause.now) (complement l)))) }
    {
        self.take_out(l);
        self.put_others_crossed(clause, blocked, l.negated())
    }

    // Takes a literal out.
    fn take_out(&mut self, l: Lit)
        ensures { HaveSame self.new (without self.old l) }
    {
        unflag(&mut self.flags, l);
    }

    /// Moves its literals out, in order, and leaves it empty.
    pub fn take(&mut self) -> Work
        ensures same { IsTrue (is_same_set result self.old) }
        ensures empty { self.new ≡ [] }
    {
        keep_flagged(&mut self.came, &self.flags);
        unflag_all(&mut self.flags, self.came.as_slice());
        let alloc = *self.came.allocator();
        Work::of_all(mem::replace(&mut self.came, SmallVec::new(alloc)))
    }

    // Puts a literal in.
    fn put(&mut self, l: Lit) -> Result<(), OutOfMemory>
        ensures { OnOk result (HaveSame self.new (l ∷ self.old)) }
    {
        make_flag(&mut self.flags, l)?;
        if !is_flagged(&self.flags, l) {
            self.came.push(l)?;
            self.flags[l.rank()] = true;
        }
        Ok(())
    }
}

// Whether a literal's flag is set.
fn is_flagged(flags: &[bool], l: Lit) -> bool
    ensures { result ≡ is_flagged flags.now l }
{
    let rank = l.rank();
    rank < flags.len() && flags[rank]
}

// Makes room for a literal's flag.
fn make_flag(flags: &mut Vec<bool>, l: Lit) -> Result<(), OutOfMemory>
    ensures room { OnOk result (rank_of l < length flags.new.items) }
    ensures same { (k : ℤ) → is_flagged flags.new.items k ≡ is_flagged flags.old.items k }
{
    let rank = l.rank();
    if flags.len() <= rank {
        flags.resize(rank + 1, false)?;
    }
    Ok(())
}

// Takes a literal's flag back.
fn unflag(flags: &mut Vec<bool>, l: Lit)
    ensures { (k : ℤ) → is_flagged flags.new.items k ≡ (is_flagged flags.old.items k && not (int_eq k l)) }
{
    let rank = l.rank();
    if rank < flags.len() {
        flags[rank] = false;
    }
}

// Keeps the literals whose flags are set.
fn keep_flagged(came: &mut SmallVec<Lit, 32>, flags: &[bool])
    ensures { came.new.items ≡ flagged flags.now came.old.items }
{
    came.retain(|l| is_flagged(flags, *l));
}

// Takes the flags of literals back.
fn unflag_all(flags: &mut Vec<bool>, lits: &[Lit])
    ensures { (k : ℤ) → is_flagged flags.new.items k ≡ (is_flagged flags.old.items k && not (contains lits.now k)) }
{
    for l in lits {
        unflag(flags, *l);
    }
}
