//! A search in breadth for one alternating path.
//!
//! It visits clauses by their positions, and reads of a matching only which clause has a variable, and which ones have
//! none. A variable by which it reached a clause is marked; the marks are kept from search to search, so no list of all
//! variables is made for one, and they are lowered again by going through the queue. So a search costs what it visits.
ghost use Rattle.std.specs.Prelude.{◌≡◌, ◌-◌, ◌<◌, ◌≤◌, [], ◌∷◌, ℕ, List, length, map, replicate, false, IfOk};
ghost use Rattle.std.specs.Prelude.{OnOk, OnErr};
ghost use Rattle.bipartite_match.specs.declared.matching.Matching.{Matching as AMatching};
ghost use Rattle.bipartite_match.specs.Visiting.{visit_at, seen_of, roots_of, goal_of, met, AreMarks, IsSearched};
ghost use Rattle.bipartite_match.specs.Visiting.{CanRead, CanBegin, root_visit};

use crate::augmenting::Start;
use lk_model::{Formula, OutOfMemory, VarSet};
use std::alloc::Global;

/// A clause that a search has reached: its position, the variable by which, and the place in the queue of the clause
/// that contains this variable. The variable is 0 where the search began.
#[derive(Clone, Copy)]
pub struct Visit {
    pub pos: u32,
    pub by: u32,
    pub from: u32,
}

impl Visit {
    // Where a search begins.
    fn root(pos: u32) -> Visit
        ensures { result ≡ root_visit pos }
    {
        Visit {
            pos,
            by: 0,
            from: 0,
        }
    }
}

/// What a search has visited.
#[derive(Drop)]
pub struct Visits {
    pub queue: Vec<Visit>,
    /// The place of the clause that contains the end.
    pub place: usize,
    /// The free variable at which the search ended, or 0.
    pub end: u32,
}

impl Visits {
    /// Visits clauses from the start on, up to the first free variable that is looked for. It reads the position of each
    /// variable and the unmatched positions; the marks are the same after it.
    pub fn of(
        alloc: Global,
        f: &Formula,
        of_var: &[u32],
        unmatched: &[u32],
        seen: &mut VarSet,
        from: Start,
    ) -> Result<Visits, OutOfMemory>
        requires can { (part : List ℕ) × (m : AMatching) × CanRead f.now of_var.now unmatched.now seen.old from part m }
        ensures searched { (part : List ℕ) (m : AMatching) → CanRead f.now of_var.now unmatched.now seen.old from part m
            → IfOk result (IsSearched f.now part m from) }
        ensures same { seen.new ≡ seen.old }
    {
        let mut visits = Visits::start(alloc, unmatched, from)?;
        let done = visits.go_on(f, of_var, seen, from);
        visits.lower(seen);
        done?;
        Ok(visits)
    }

    // Only the roots are visited.
    fn start(alloc: Global, unmatched: &[u32], from: Start) -> Result<Visits, OutOfMemory>
        ensures queue { IfOk result (λ s. s.queue.items ≡ roots_of unmatched.now from) }
        ensures end { IfOk result (λ s. s.end ≡ 0) }
    {
        Ok(Visits {
            queue: roots(alloc, unmatched, from)?,
            place: 0,
            end: 0,
        })
    }

    // Visits clauses from the roots on.
    fn go_on(
        &mut self,
        f: &Formula,
        of_var: &[u32],
        seen: &mut VarSet,
        from: Start,
    ) -> Result<(), OutOfMemory>
        requires can { (part : List ℕ) × (m : AMatching) ×
            CanBegin f.now of_var.now seen.old self.old.queue.items from part m }
        requires end { self.old.end ≡ 0 }
        ensures searched { (part : List ℕ) (m : AMatching)
            → CanBegin f.now of_var.now seen.old self.old.queue.items from part m
            → OnOk result (IsSearched f.now part m from self.new) }
        ensures marks { AreMarks self.new.queue.items seen.new }
        ensures size { length seen.new ≡ f.now.vars }
    {
        let goal = goal_of(from);
        'places: for place in 0..f.len() {
            if self.queue.len() <= place as usize {
                return Ok(());
            }
            let pos = visit_at(&self.queue, place as usize).pos;
            'literals: for l in f.clause(pos) {
                self.meet(of_var, seen, goal, place, l.var())?;
                if self.end != 0 {
                    self.place = place as usize;
                    return Ok(());
                }
            }
        }
        Ok(())
    }

    // A variable of the clause at a place is met.
    fn meet(
        &mut self,
        of_var: &[u32],
        seen: &mut VarSet,
        goal: u32,
        place: u32,
        v: u32,
    ) -> Result<(), OutOfMemory>
        requires some { 0 < v }
        requires vars { v ≤ length of_var.now }
        requires seen { length seen.old ≡ length of_var.now }
        ensures ok { OnOk result (seen_of self.new seen.new ≡ met of_var.now goal place v (seen_of self.old seen.old)) }
        ensures err { OnErr result (seen_of self.new seen.new ≡ seen_of self.old seen.old) }
    {
        if seen.has(v) {
            return Ok(());
        }
        let pos = of_var[v as usize - 1];
        if pos != 0 {
            self.queue.push(Visit {
                pos,
                by: v,
                from: place,
            })?;
            seen.add(v);
            return Ok(());
        }
        if goal == 0 || goal == v {
            self.end = v;
        }
        Ok(())
    }

    // Takes all marks away.
    fn lower(&self, seen: &mut VarSet)
        requires { AreMarks self.now.queue.items seen.old }
        ensures { seen.new ≡ replicate (length seen.old) false }
    {
        for visit in &self.queue {
            if visit.by != 0 {
                seen.remove(visit.by);
            }
        }
    }
}

// The variable that is looked for, 0 where any free one is.
fn goal_of(from: Start) -> u32
    ensures { result ≡ goal_of from }
{
    match from {
        Start::Clause(_) => 0,
        Start::Variable(v) => v,
    }
}

// Where a search begins.
fn roots(alloc: Global, unmatched: &[u32], from: Start) -> Result<Vec<Visit>, OutOfMemory>
    ensures { IfOk result (λ q. q.items ≡ roots_of unmatched.now from) }
{
    match from {
        Start::Clause(pos) => one_root(alloc, pos),
        Start::Variable(_) => all_roots(alloc, unmatched),
    }
}

fn one_root(alloc: Global, pos: u32) -> Result<Vec<Visit>, OutOfMemory>
    ensures { IfOk result (λ q. q.items ≡ root_visit pos ∷ []) }
{
    let mut queue = Vec::new(alloc);
    queue.push(Visit::root(pos))?;
    Ok(queue)
}

// All unmatched clauses.
fn all_roots(alloc: Global, unmatched: &[u32]) -> Result<Vec<Visit>, OutOfMemory>
    ensures { IfOk result (λ q. q.items ≡ map root_visit unmatched.now) }
{
    Ok(
        unmatched
            .iter()
            .map(|pos| Visit::root(*pos))
            .collect(alloc)?,
    )
}

/// A visit of the queue.
pub fn visit_at(queue: &[Visit], place: usize) -> Visit
    requires { place < length queue.now }
    ensures { result ≡ visit_at queue.now place }
{
    queue[place]
}
