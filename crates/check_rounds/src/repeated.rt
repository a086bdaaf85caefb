//! A long clause that a chain joins again and again.
//!
//! The clause so far has each literal of a clause that was joined, but for those on which was resolved since. So a
//! further turn with it puts in those alone, and looks its literal up in a set. A clause is kept for this at its second
//! turn in a row among the turns with long clauses that are not kept, so that chains without repeats copy nothing.
ghost use Rattle.std.specs.Prelude.{◌≡◌, ◌≤◌, ◌<◌, ◌⊎◌, ◌++◌, true, ℕ, ℤ, List, length, IfOk, OnOk, IsTrue};
ghost use Rattle.std.specs.List.{list_all};
ghost use Rattle.lk_model.specs.Formulas.Literal.{is_literal, rank_of};
ghost use Rattle.lk_model.specs.Formulas.Crossed.{crossed_out};
ghost use Rattle.lk_model.specs.Chains.Chain.{resolvent, without};
ghost use Rattle.check_rounds.specs.declared.work.Work.{Work as AWork};
ghost use Rattle.check_rounds.specs.Blocking.{is_before};
ghost use Rattle.check_rounds.specs.Chains.{IsWork, IsMade};
ghost use Rattle.check_rounds.specs.Repeats.{IsRepeated, IsIdle, HasSame, HasKept, KeepsBut};

use crate::blocking::is_before;
use crate::work::Work;
use check_tables::LiteralSet;
use lk_model::{Lit, OutOfMemory};
use std::alloc::Global;

/// A clause of fewer literals is joined as a whole each time.
const LONG: usize = 32;

/// The kept clause, or none, over the variables from 1 to n.
#[derive(Drop)]
pub(crate) struct Repeated {
    /// The number that names it in the chain; 0 if none is kept.
    pub number: u64,
    /// The number of the long clause that was joined last without being kept.
    last: u64,
    literals: Vec<Lit>,
    held: LiteralSet,
    /// Literals of it that the clause so far may lack, and no others.
    lost: Vec<Lit>,
}

impl Repeated {
    /// No clause is kept.
    pub fn new(alloc: Global, n: u32) -> Result<Repeated, OutOfMemory>
        requires { n ≤ 1000000 }
        ensures { IfOk result (IsIdle n) }
    {
        Ok(Repeated {
            number: 0,
            last: 0,
            literals: Vec::new(alloc),
            held: LiteralSet::new(alloc, n)?,
            lost: Vec::new(alloc),
        })
    }

    /// Takes a turn with the kept clause, where it can be made.
    pub fn take(
        &mut self,
        n: u32,
        blocks: &[usize],
        t: Lit,
        work: &mut Work,
    ) -> Result<bool, OutOfMemory>
        requires blocks { length blocks.now ≡ n }
        requires literal { IsTrue (is_literal n t) }
        requires work { (c : List ℤ) × IsWork n c work.old }
        requires repeated { IsRepeated n work.old self.old }
        ensures made { IfOk result (λ made. (c : List ℤ) → IsWork n c work.old →
            IsMade n (resolvent t c self.old.literals.items) made work.new) }
        ensures repeated { OnOk result (IsRepeated n work.new self.new) }
        ensures same { OnOk result (HasSame self.old self.new) }
    {
        let against = t.negated();
        if !work.has(t) || !self.held.has(against) {
            return Ok(false);
        }
        work.remove(t);
        self.lose(t)?;
        work.add_others(n, 0, blocks, self.lost.as_slice(), against)?;
        self.lost.clear();
        self.lost.push(against)?;
        Ok(true)
    }

    /// Notes that the clause so far may lack a literal from now on.
    pub fn lose(&mut self, t: Lit) -> Result<(), OutOfMemory>
        requires { rank_of t < length self.old.held }
        ensures repeated { OnOk result ((n : ℕ) (w v : AWork) → is_literal n t ≡ true → KeepsBut n t w v →
            IsRepeated n w self.old → IsRepeated n v self.new) }
        ensures same { OnOk result (HasSame self.old self.new) }
    {
        if self.held.has(t) {
            self.lost.push(t)?;
        }
        Ok(())
    }

    /// Notes that a clause was joined, without the literals on variables blocked before the round k, and without one
    /// more: if it is long and was the last such one, it is kept.
    pub fn note(
        &mut self,
        number: u64,
        n: u32,
        k: usize,
        blocks: &[usize],
        clause: &[Lit],
        but: Lit,
    ) -> Result<(), OutOfMemory>
        requires clause { IsTrue (list_all (is_literal n) clause.now) }
        requires blocks { length blocks.now ≡ n }
        requires repeated { (w : AWork) × IsRepeated n w self.old }
        ensures { OnOk result
            ((HasSame self.old self.new × (self.new.lost.items ≡ self.old.lost.items))
            ⊎ HasKept n number (crossed_out (is_before k blocks.now) clause.now) but self.new) }
    {
        if clause.len() < LONG {
            return Ok(());
        }
        if self.last == number {
            self.keep(number, n, k, blocks, clause, but)
        } else {
            self.last = number;
            Ok(())
        }
    }

    /// Keeps a clause in the place of the kept one.
    fn keep(
        &mut self,
        number: u64,
        n: u32,
        k: usize,
        blocks: &[usize],
        clause: &[Lit],
        but: Lit,
    ) -> Result<(), OutOfMemory>
        requires clause { IsTrue (list_all (is_literal n) clause.now) }
        requires blocks { length blocks.now ≡ n }
        requires repeated { (w : AWork) × IsRepeated n w self.old }
        ensures { OnOk result (HasKept n number (crossed_out (is_before k blocks.now) clause.now) but self.new) }
    {
        self.forget();
        push_left(k, blocks, clause, &mut self.literals)?;
        self.held.add_all(&self.literals);
        self.lost.push(but)?;
        self.number = number;
        Ok(())
    }

    /// Keeps no clause any more.
    pub fn forget(&mut self)
        requires { (n : ℕ) × (w : AWork) × IsRepeated n w self.old }
        ensures { (n : ℕ) (w : AWork) → IsRepeated n w self.old → IsIdle n self.new }
    {
        self.held.remove_all(&self.literals);
        self.literals.clear();
        self.lost.clear();
        self.number = 0;
        self.last = 0;
    }
}

/// Appends the literals of a clause that are not on variables blocked before the round k.
fn push_left(
    k: usize,
    blocks: &[usize],
    clause: &[Lit],
    literals: &mut Vec<Lit>,
) -> Result<(), OutOfMemory>
    requires { IsTrue (list_all (is_literal (length blocks.now)) clause.now) }
    ensures { OnOk result (literals.new.items ≡ literals.old.items ++ crossed_out (is_before k blocks.now) clause.now) }
{
    for l in clause {
        if !is_before(k, blocks, l.var()) {
            literals.push(*l)?;
        }
    }
    Ok(())
}
