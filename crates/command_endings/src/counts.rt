//! How many clauses of a formula are of some kinds.
ghost use Rattle.std.specs.Prelude.{◌≡◌, ◌+◌, ◌<◌, ◌^◌, ℤ, [], length, IfOk, OnOk, IsTrue};
ghost use Rattle.lk_model.specs.Formulas.Literal.{complement, contains, is_clause, is_literal, is_tautology};
ghost use Rattle.command_endings.specs.Counting.{counts_of, with_clause};

use lk_model::{Formula, Lit, OpenClause, OutOfMemory};
use std::alloc::Global;

/// How many literals the clauses of a formula contain together, and how many of them have none, have one, and
/// contain both literals of a variable.
#[derive(Clone, Copy)]
pub(crate) struct Counts {
    pub(crate) literals: u64,
    pub(crate) empty: u64,
    pub(crate) units: u64,
    pub(crate) tautologies: u64,
}

/// The counts of the clauses of a formula.
pub(crate) fn counts_of(alloc: Global, f: &Formula) -> Result<Counts, OutOfMemory>
    ensures { IfOk result (λ counts. counts ≡ counts_of f.now.clauses) }
{
    let mut growing = OpenClause::new(alloc, f.vars())?;
    let mut counts = Counts {
        literals: 0,
        empty: 0,
        units: 0,
        tautologies: 0,
    };
    for i in 0..f.len() {
        let clause = f.clause(i + 1);
        let tautology = is_tautology(&mut growing, clause)?;
        counts.add(clause, tautology);
    }
    Ok(counts)
}

impl Counts {
    /// Counts one clause more.
    fn add(&mut self, clause: &[Lit], tautology: bool)
        requires literals { self.old.literals + length clause.now < 2 ^ 32 }
        requires empty { self.old.empty < 2 ^ 32 }
        requires units { self.old.units < 2 ^ 32 }
        requires tautologies { self.old.tautologies < 2 ^ 32 }
        requires tautology { tautology ≡ is_tautology clause.now }
        ensures { self.new ≡ with_clause self.old clause.now }
    {
        self.literals += clause.len() as u64;
        self.empty += u64::from(clause.is_empty());
        self.units += u64::from(clause.len() == 1);
        self.tautologies += u64::from(tautology);
    }
}

/// Whether both literals of a variable stand in the clause, by means of a growing clause without literals.
fn is_tautology(growing: &mut OpenClause, clause: &[Lit]) -> Result<bool, OutOfMemory>
    requires empty { growing.old.literals ≡ [] }
    requires clause { IsTrue (is_clause growing.old.vars clause.now) }
    ensures answer { IfOk result (λ answer. answer ≡ is_tautology clause.now) }
    ensures empty { OnOk result (growing.new ≡ growing.old) }
{
    for l in clause {
        growing.push(*l)?;
    }
    let answer = has_complements(growing, clause);
    growing.clear();
    Ok(answer)
}

/// Whether the complement of one of these literals stands in the growing clause, which has them all.
fn has_complements(growing: &OpenClause, clause: &[Lit]) -> bool
    requires literals { growing.now.literals ≡ clause.now }
    requires clause { IsTrue (is_clause growing.now.vars clause.now) }
    ensures { result ≡ is_tautology clause.now }
{
    clause.iter().any(|l| holds_complement(growing, *l))
}

fn holds_complement(growing: &OpenClause, l: Lit) -> bool
    requires { IsTrue (is_literal growing.now.vars l) }
    ensures { result ≡ contains growing.now.literals (complement l) }
{
    growing.holds(l.negated())
}
