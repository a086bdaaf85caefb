//! Clauses by one literal each.
//!
//! A clause stands within another one only if the literal under which it is listed stands there too. So only the lists
//! of the other clause's literals are gone through, and no clause stands in two lists (one-literal watching; Zhang, "On
//! Subsumption Removal and On-the-Fly CNF Simplification", 2005). Here the literal is one on a variable that is blocked
//! last, so that the same lists serve all rounds: where this literal is crossed out, all of the clause is. Among such
//! literals it is the one with the shortest list so far, so that no list grows long where clauses have rare literals.
//! Of equal clauses of the formula one is listed for most: a table has at a place, to which a clause is led by its
//! literals, the last clause that was listed from there.
ghost use Rattle.std.specs.Prelude.{◌≡◌, ◌≤◌, ◌<◌, ◌+◌, ◌-◌, ◌*◌, ◌⊎◌, ℕ, ℤ, List, [], true, nat_le, length, IfOk, OnOk};
ghost use Rattle.std.specs.Prelude.{IsTrue, MatchOption};
ghost use Rattle.std.specs.List.{list_all};
ghost use Rattle.lk_model.specs.Formulas.Literal.{is_literal, is_same_list, contains, rank_of};
ghost use Rattle.lk_model.specs.Formulas.Formula.{clause_at};
ghost use Rattle.lk_model.specs.Documents.Documents.{steps_of};
ghost use Rattle.lk_model.specs.Documents.Form.{are_steps};
ghost use Rattle.lk_model.specs.declared.document.Step.{Step as AStep};
ghost use Rattle.check_rounds.specs.Index.{block_of, list_of, AreClausesListed, AreRoundsListed, AreStepsListed};
ghost use Rattle.check_rounds.specs.Index.{AreLast, IsListed, KeepsListed, is_clause_of};

use lk_model::{Formula, List, Lit, LitTable, OutOfMemory, Round, Step};
use std::alloc::Global;
use std::marker::Model;

/// The numbers of clauses, each listed under one literal of its clause.
#[derive(Drop)]
pub(crate) struct Index {
    lists: LitTable<List<u64>>,
}

impl Model for Index {
    ghost use Rattle.std.specs.Prelude.{ℕ, List};

    ghost Value = { List (List ℕ) };

    ghost view = { λ t. t.lists };
}

impl Index {
    /// The index without a clause, over the variables from 1 to n.
    fn new(alloc: Global, n: u32) -> Result<Index, OutOfMemory>
        requires { n ≤ 1000000 }
        ensures { IfOk result (λ t. length t ≡ 2 * n + 2) }
    {
        Ok(Index {
            lists: LitTable::new_with(alloc, n, || List::new(alloc))?,
        })
    }

    /// The clauses of a formula by their positions.
    pub fn of_formula(alloc: Global, f: &Formula, blocks: &[usize]) -> Result<Index, OutOfMemory>
        requires { length blocks.now ≡ f.now.vars }
        ensures size { IfOk result (λ t. length t ≡ 2 * f.now.vars + 2) }
        ensures found { IfOk result (λ t. AreClausesListed blocks.now t f.now (length f.now.clauses)) }
    {
        let mut index = Index::new(alloc, f.vars())?;
        let mut last = vec![in alloc; 0u32; f.len() as usize + 1]?;
        for i in 0..f.len() {
            index.add_once(f, blocks, i + 1, &mut last)?;
        }
        Ok(index)
    }

    /// Lists the clause at a position behind those that were gone through, unless the last listed one of its place in
    /// a table is the same list of literals.
    fn add_once(
        &mut self,
        f: &Formula,
        blocks: &[usize],
        p: u32,
        last: &mut Vec<u32>,
    ) -> Result<(), OutOfMemory>
        requires blocks { length blocks.now ≡ f.now.vars }
        requires size { length self.old ≡ 2 * f.now.vars + 2 }
        requires least { 0 < p }
        requires most { p ≤ length f.now.clauses }
        requires places { 0 < length last.old.items }
        requires last { AreLast blocks.now self.old f.now last.old.items }
        requires found { AreClausesListed blocks.now self.old f.now (p - 1) }
        ensures size { OnOk result (length self.new ≡ length self.old) }
        ensures places { length last.new.items ≡ length last.old.items }
        ensures last { OnOk result (AreLast blocks.now self.new f.now last.new.items) }
        ensures found { OnOk result (AreClausesListed blocks.now self.new f.now p) }
    {
        let clause = f.clause(p);
        let place = mix(clause) % last.len();
        if is_clause_at(f, last[place], clause) {
            return Ok(());
        }
        self.add(f.vars(), blocks, clause, u64::from(p))?;
        last[place] = p;
        Ok(())
    }

    /// The clauses of the steps of rounds by the steps' numbers.
    pub fn of_rounds(
        alloc: Global,
        f: &Formula,
        rounds: &[Round],
        blocks: &[usize],
    ) -> Result<Index, OutOfMemory>
        requires blocks { length blocks.now ≡ f.now.vars }
        requires steps { IsTrue (are_steps f.now.vars (length f.now.clauses) (steps_of rounds.now)) }
        ensures size { IfOk result (λ t. length t ≡ 2 * f.now.vars + 2) }
        ensures found { IfOk result (λ t. AreRoundsListed blocks.now t rounds.now) }
    {
        let mut index = Index::new(alloc, f.vars())?;
        for k in 0..rounds.len() {
            index.add_steps(f.vars(), blocks, rounds[k].steps.as_slice())?;
        }
        Ok(index)
    }

    /// Lists the clauses of steps.
    fn add_steps(&mut self, n: u32, blocks: &[usize], steps: &[Step]) -> Result<(), OutOfMemory>
        requires blocks { length blocks.now ≡ n }
        requires size { length self.old ≡ 2 * n + 2 }
        requires literals { IsTrue (list_all (λ (s : AStep). list_all (is_literal n) s.clause) steps.now) }
        ensures size { OnOk result (length self.new ≡ length self.old) }
        ensures found { OnOk result (AreStepsListed blocks.now self.new steps.now) }
        ensures kept { OnOk result (KeepsListed blocks.now self.old self.new) }
    {
        for i in 0..steps.len() {
            let step = &steps[i];
            self.add(n, blocks, step.clause.as_slice(), step.number)?;
        }
        Ok(())
    }

    /// Lists a clause with a number.
    fn add(
        &mut self,
        n: u32,
        blocks: &[usize],
        clause: &[Lit],
        number: u64,
    ) -> Result<(), OutOfMemory>
        requires blocks { length blocks.now ≡ n }
        requires size { length self.old ≡ 2 * n + 2 }
        requires clause { IsTrue (list_all (is_literal n) clause.now) }
        ensures size { OnOk result (length self.new ≡ length self.old) }
        ensures found { OnOk result (IsListed blocks.now self.new clause.now number) }
        ensures kept { OnOk result (KeepsListed blocks.now self.old self.new) }
    {
        if let Some(l) = self.literal_of(n, blocks, clause) {
            self.lists[l].push(number)?;
        }
        Ok(())
    }

    /// The literal under which a clause is to be listed.
    fn literal_of(&self, n: u32, blocks: &[usize], clause: &[Lit]) -> Option<Lit>
        requires blocks { length blocks.now ≡ n }
        requires size { length self.now ≡ 2 * n + 2 }
        requires clause { IsTrue (list_all (is_literal n) clause.now) }
        ensures { MatchOption result (clause.now ≡ []) (λ l. (contains clause.now l ≡ true)
            × IsTrue (list_all (λ k. nat_le (block_of blocks.now k) (block_of blocks.now l)) clause.now)) }
    {
        let mut best = None;
        for l in clause {
            best = Some(match best {
                Some(k) => self.better(n, blocks, k, *l),
                None => *l,
            });
        }
        best
    }

    /// Of two literals the one to be preferred.
    fn better(&self, n: u32, blocks: &[usize], k: Lit, l: Lit) -> Lit
        requires blocks { length blocks.now ≡ n }
        requires size { length self.now ≡ 2 * n + 2 }
        requires first { IsTrue (is_literal n k) }
        requires second { IsTrue (is_literal n l) }
        ensures one { (result ≡ k) ⊎ (result ≡ l) }
        ensures first { block_of blocks.now k ≤ block_of blocks.now result }
        ensures second { block_of blocks.now l ≤ block_of blocks.now result }
    {
        let old = blocks[k.var() as usize - 1];
        let new = blocks[l.var() as usize - 1];
        if new > old || new == old && self.lists[l].len() < self.lists[k].len() {
            l
        } else {
            k
        }
    }

    /// The numbers of the clauses that are listed under a literal.
    pub fn numbers(&self, l: Lit) -> &[u64]
        requires { rank_of l < length self.now }
        ensures { result.now ≡ list_of self.now l }
    {
        self.lists[l].as_slice()
    }
}

/// Whether a position is one of the formula, and this list of literals is the clause there.
fn is_clause_at(f: &Formula, p: u32, clause: &[Lit]) -> bool
    ensures { result ≡ is_clause_of f.now p clause.now }
{
    1 <= p && p <= f.len() && is_same_list(f.clause(p), clause)
}

/// Whether two clauses are the same literals in the same order.
fn is_same_list(one: &[Lit], other: &[Lit]) -> bool
    ensures { result ≡ is_same_list one.now other.now }
{
    one == other
}

/// A number that depends on a clause alone, and differs for most others.
fn mix(clause: &[Lit]) -> usize {
    let mut sum: u64 = 0;
    for l in clause {
        sum = (sum ^ l.rank() as u64).wrapping_mul(0x9E37_79B9_7F4A_7C15);
        sum ^= sum >> 29;
    }
    sum as usize
}
