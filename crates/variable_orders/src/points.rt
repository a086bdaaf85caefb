//! The points that clauses give to variables.
//!
//! A clause gives points to each of its variables that are ahead: one where the first of its variables comes, two where
//! two are left, four where one is left. A heap has the variables with the points that they had at some time. When a
//! variable gets more, its earlier entries stay, and are passed over once it has come. A clause makes no more entries
//! than three times its literals, so that the work grows with the number of literals times its logarithm. No clause
//! says how many points a variable has.
ghost use Rattle.std.specs.Prelude.{◌≡◌, ◌<◌, ◌≤◌, ℕ, length, IfSome, IsTrue};
ghost use Rattle.std.specs.List.{All};
ghost use Rattle.lk_model.specs.Formulas.Literal.{is_clause};
ghost use Rattle.lk_model.specs.Held.VariableSets.{is_in, IsCrossed};

use lk_model::{Crossed, Lit, OutOfMemory, VarSet};
use std::alloc::Global;
use std::cmp::Reverse;
use std::collections::BinaryHeap;

/// How many literals a crossed clause has, and how many of them are on variables that are ahead.
#[derive(Clone, Copy)]
struct Counts {
    whole: u32,
    ahead: u32,
}

impl Counts {
    /// One literal less is ahead: the points that the others get.
    fn lower(&mut self) -> u32 {
        let is_new = self.ahead == self.whole;
        self.ahead = self.ahead.saturating_sub(1);
        match self.ahead {
            0 => 0,
            1 => 4,
            2 => 2,
            _ => u32::from(is_new),
        }
    }
}

/// The points of variables.
#[derive(Drop)]
pub(crate) struct Points {
    /// By position, with nothing at 0. A clause outside of the part has no literals.
    clauses: Vec<Counts>,
    /// By variable, with nothing at 0.
    points: Vec<u32>,
    /// Points that a variable had at some time, and the variable.
    heap: BinaryHeap<(u32, Reverse<u32>)>,
}

impl Points {
    /// Where no variable has come.
    pub fn new(alloc: Global, over: &Crossed) -> Result<Points, OutOfMemory>
        requires { IsCrossed over.now }
    {
        let none = Counts { whole: 0, ahead: 0 };
        let mut clauses = vec![in alloc; none; over.formula.len() as usize + 1]?;
        for position in over.part {
            let size = size_of(over, *position);
            if let Some(counts) = clauses.get_mut(*position as usize) {
                *counts = Counts {
                    whole: size,
                    ahead: size,
                };
            }
        }
        Ok(Points {
            clauses,
            points: vec![in alloc; 0; over.formula.vars() as usize + 1]?,
            heap: BinaryHeap::new(alloc),
        })
    }

    /// Gives the points that a variable brings which has come, by the positions of the clauses with its literals.
    pub fn give(
        &mut self,
        over: &Crossed,
        positions: &[u32],
        ahead: &VarSet,
    ) -> Result<(), OutOfMemory>
        requires positions { All (λ p. (0 < p) × (p ≤ length over.now.formula.now.clauses)) positions.now }
        requires ahead { length ahead.now ≡ over.now.formula.now.vars }
    {
        for position in positions {
            let worth = match self.clauses.get_mut(*position as usize) {
                Some(counts) => counts.lower(),
                None => 0,
            };
            if worth > 0 {
                self.raise(over.formula.clause(*position), worth, ahead)?;
            }
        }
        Ok(())
    }

    /// Gives `worth` points to each variable of a clause that is ahead.
    fn raise(&mut self, clause: &[Lit], worth: u32, ahead: &VarSet) -> Result<(), OutOfMemory>
        requires { IsTrue (is_clause (length ahead.now) clause.now) }
    {
        for l in clause {
            if ahead.has(l.var()) {
                if let Some(points) = self.points.get_mut(l.var() as usize) {
                    *points = points.saturating_add(worth);
                    self.heap.push((*points, Reverse(l.var())))?;
                }
            }
        }
        Ok(())
    }

    /// Of the variables that are ahead and have points the one with most, and of these the least.
    pub fn next(&mut self, n: u32, ahead: &VarSet) -> Option<u32>
        requires { length ahead.now ≡ n }
        ensures first { IfSome result (λ v. 0 < v) }
        ensures last { IfSome result (λ v. v ≤ n) }
        ensures ahead { IfSome result (λ v. IsTrue (is_in ahead.now v)) }
    {
        while let Some((_, Reverse(v))) = self.heap.pop() {
            if v > 0 && v <= n && ahead.has(v) {
                return Some(v);
            }
        }
        None
    }
}

/// How many literals the crossed clause at a position has.
fn size_of(over: &Crossed, position: u32) -> u32
    requires crossed { IsCrossed over.now }
    requires first { 0 < position }
    requires last { position ≤ length over.now.formula.now.clauses }
{
    let mut size = 0u32;
    for l in over.formula.clause(position) {
        if !over.blocked.has(l.var()) {
            size = size.saturating_add(1);
        }
    }
    size
}
