//! Chains that are given, and whether they have a clause.
ghost use Rattle.std.specs.Prelude.{◌≡◌, ◌<◌, ◌↔◌, ◌∷◌, [], false, length, IfOk, IsTrue, IsSome};
ghost use Rattle.std.specs.Option.{option_map_or};
ghost use Rattle.lk_model.specs.Formulas.Literal.{contains, is_clause};
ghost use Rattle.lk_model.specs.Formulas.Formula.{positions_of};
ghost use Rattle.lk_model.specs.Formulas.Crossed.{crossed_out};
ghost use Rattle.lk_model.specs.Held.VariableSets.{is_in, IsCrossed, premises_of};
ghost use Rattle.lk_model.specs.Chains.Chain.{clause_named, after_turns, chain_clause};

use crate::chain_clause::FlaggedClause;
use crate::log::Log;
use lk_model::{Crossed, List, Lit, OutOfMemory, Turn, VarSet};

/// A chain: the number of its first clause, and the turns by which others are resolved with it, one after
/// another.
#[derive(Drop)]
pub struct Chain {
    pub first: u64,
    pub turns: List<Turn>,
}

impl Log {
    /// Whether a chain has a clause, as `has_chain` tells. The literals of the clause so far are flagged.
    pub(crate) fn goes(
        &self,
        over: &Crossed,
        first: u64,
        turns: &[Turn],
        flagged: &mut FlaggedClause,
    ) -> Result<bool, OutOfMemory>
        requires crossed { IsCrossed over.now }
        requires whole { over.now.part.now ≡ positions_of over.now.formula.now }
        requires past { length over.now.formula.now.clauses < self.now.first }
        ensures { IfOk result
            (λ goes. IsTrue goes ↔ IsSome (chain_clause (premises_of over.now self.now.steps) first turns.now)) }
    {
        if !self.names_clause(over, first) {
            return Ok(false);
        }
        flagged.clear();
        self.begin(over, first, flagged)?;
        for turn in turns {
            if !self.can_take(over, *turn, flagged) {
                return Ok(false);
            }
            self.take(over, *turn, flagged)?;
        }
        Ok(true)
    }

    // Whether a number stands for a clause.
    fn names_clause(&self, over: &Crossed, k: u64) -> bool
        requires whole { over.now.part.now ≡ positions_of over.now.formula.now }
        requires past { length over.now.formula.now.clauses < self.now.first }
        ensures { IsTrue result ↔ IsSome (clause_named (premises_of over.now self.now.steps) k) }
    {
        if k <= u64::from(over.formula.len()) {
            k > 0
        } else {
            self.has(k)
        }
    }

    // Whether a turn can be made.
    fn can_take(&self, over: &Crossed, turn: Turn, flagged: &FlaggedClause) -> bool
        requires crossed { IsCrossed over.now }
        requires whole { over.now.part.now ≡ positions_of over.now.formula.now }
        requires past { length over.now.formula.now.clauses < self.now.first }
        ensures { IsTrue result ↔
            IsSome (after_turns (premises_of over.now self.now.steps) flagged.now (turn ∷ [])) }
    {
        flagged.has(turn.lit)
            && self.names_clause(over, turn.with)
            && self.holds(over, turn.with, turn.lit.negated())
    }

    // Whether the clause that a number stands for contains a literal.
    fn holds(&self, over: &Crossed, k: u64, l: Lit) -> bool
        requires crossed { IsCrossed over.now }
        requires past { length over.now.formula.now.clauses < self.now.first }
        requires named { IsSome (clause_named (premises_of over.now self.now.steps) k) }
        ensures { result ≡ option_map_or (λ c. contains c l) (clause_named (premises_of over.now self.now.steps) k) false }
    {
        if k <= u64::from(over.formula.len()) {
            holds_crossed(over.formula.clause(k as u32), over.blocked, l)
        } else {
            self.clause(k).contains(&l)
        }
    }
}

// Whether a clause contains a literal whose variable is not in a set.
fn holds_crossed(clause: &[Lit], blocked: &VarSet, l: Lit) -> bool
    requires { IsTrue (is_clause (length blocked.now) clause.now) }
    ensures { result ≡ contains (crossed_out (is_in blocked.now) clause.now) l }
{
    clause.contains(&l) && !blocked.has(l.var())
}
