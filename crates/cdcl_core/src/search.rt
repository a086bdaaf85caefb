//! A search for a model.
ghost use Rattle.std.specs.Prelude.{◌≡◌, ◌+◌, ◌-◌, ◌<◌, ◌^◌, ◌≤◌, [], ℕ, None, true, false, slice_index_or, length};
ghost use Rattle.std.specs.Prelude.{IfOk, IfSome, IsNone, OnOk, IsTrue};
ghost use Rattle.std.specs.List.{list_all};
ghost use Rattle.lk_model.specs.Held.VariableSets.{IsCrossed};
ghost use Rattle.lk_model.specs.Chains.Rounds.{is_refutation};
ghost use Rattle.refutation_log.specs.Derivation.{next_number};
ghost use Rattle.watch_prop.specs.declared.entry.Propagated.TheVariants.{Conflict};
ghost use Rattle.watch_prop.specs.Trail.{present_level};
ghost use Rattle.watch_prop.specs.Propagation.{assigned, is_quiet, IsAnswered};
ghost use Rattle.learning_laws.specs.SolveLaw.{IsRoundOver};
ghost use Rattle.cdcl_core.specs.Decision.{IsModelOver};
ghost use Rattle.refutation_log.specs.Trimmed.{are_filled_before_last};
ghost use Rattle.cdcl_core.specs.Orders.{are_set, may_decide, IsPlacedAt};
ghost use Rattle.variable_orders.specs.VariableOrders.{IsOrderOver};
ghost use Rattle.cdcl_core.specs.Searching.{IsSearch};

use crate::activity::Activity;
use crate::analysis::{analyze, level_below};
use crate::minimizing::turns_back;
use crate::order::Order;
use crate::signs::Signs;
use lk_model::{Crossed, Lit, OutOfMemory, VarSet};
use partial_assign::Partial;
use refutation_log::Log;
use std::alloc::Global;
use watch_prop::Propagator;

/// The clauses and the trail, the steps that learned clauses, the order of the variables, and marks that are clean
/// between two conflicts.
#[derive(Drop)]
pub(crate) struct Search {
    pub propagator: Propagator,
    pub log: Log,
    pub order: Order,
    pub marks: VarSet,
}

impl Search {
    /// Where nothing is set and nothing is learned.
    pub fn new(
        alloc: Global,
        over: &Crossed,
        order: Vec<u32>,
        next: u64,
    ) -> Result<Search, OutOfMemory>
        requires crossed { IsCrossed over.now }
        requires order { IsOrderOver over.now order.items }
        requires past { length over.now.formula.now.clauses < next }
        ensures search { IfOk result (IsSearch over.now) }
        ensures first { IfOk result (λ s. s.log.first ≡ next) }
        ensures steps { IfOk result (λ s. s.log.steps ≡ []) }
    {
        // The propagator comes last: what is larger to drop is better not held where the others fail.
        let marks = VarSet::new(alloc, over.formula.vars())?;
        let order = Order::new(alloc, order);
        Ok(Search {
            propagator: Propagator::new(alloc, over)?,
            log: Log::new(alloc, next),
            order,
            marks,
        })
    }

    /// Sets an unset variable at a new level, and returns whether there was one.
    pub fn assign_next(
        &mut self,
        over: &Crossed,
        signs: &Signs,
        activity: &mut Activity,
    ) -> Result<bool, OutOfMemory>
        requires crossed { IsCrossed over.now }
        requires search { IsSearch over.now self.old }
        requires quiet { IsTrue (is_quiet (assigned self.old.propagator) self.old.propagator.clauses) }
        ensures search { OnOk result (IsSearch over.now self.new) }
        ensures log { self.new.log ≡ self.old.log }
        ensures vars { OnOk result (self.new.propagator.vars ≡ self.old.propagator.vars) }
        ensures more { IfOk result (λ b. b ≡ true →
            length self.new.propagator.trail ≡ length self.old.propagator.trail + 1) }
        ensures none { IfOk result (λ b. b ≡ false → (self.new.propagator ≡ self.old.propagator) ×
            IsTrue (are_set self.new.propagator.trail self.new.order.vars.items)) }
    {
        match next_unset(over, &self.propagator, &mut self.order, activity) {
            Some(v) => {
                self.order.open()?;
                self.propagator.assign(Lit::from_var(v, signs.of(v)));
                Ok(true)
            }
            None => Ok(false),
        }
    }

    /// Goes back to level 0, with all that is learned. The values that are taken back are noted.
    pub fn begin_anew(&mut self, over: &Crossed, signs: &mut Signs, activity: &mut Activity)
        requires search { IsSearch over.now self.old }
        ensures search { IsSearch over.now self.new }
        ensures log { self.new.log ≡ self.old.log }
    {
        if self.propagator.present_level() > 0 {
            signs.note_above(&self.propagator, 0);
            activity.put_back_above(&self.propagator, 0);
            self.propagator.retract(0);
            self.order.back(0);
        }
    }

    /// Learns a clause from a false one, and goes back to the highest level of its other literals. The values that are
    /// taken back are noted.
    pub fn learn(
        &mut self,
        alloc: Global,
        over: &Crossed,
        signs: &mut Signs,
        activity: &mut Activity,
        conflict: u64,
    ) -> Result<(), OutOfMemory>
        requires crossed { IsCrossed over.now }
        requires search { IsSearch over.now self.old }
        requires conflict { IsAnswered self.old.propagator (Conflict conflict) }
        requires above { 0 < present_level self.old.propagator.trail }
        requires room { next_number self.old.log < 2 ^ 64 - 1 }
        ensures search { OnOk result (IsSearch over.now self.new) }
        ensures first { OnOk result (self.new.log.first ≡ self.old.log.first) }
        ensures steps { OnOk result (length self.new.log.steps ≡ length self.old.log.steps + 1) }
        ensures vars { OnOk result (self.new.propagator.vars ≡ self.old.propagator.vars) }
    {
        let shorter = !activity.is_empty();
        let turns = turns_back(alloc, &self.propagator, conflict, shorter, &mut self.marks)?;
        let number = self.log.push_chain(over, conflict, &turns)?;
        let clause = self.log.last_clause();
        self.marks.remove_clause(clause);
        activity.meet(turns.as_slice(), clause);
        let level = level_below(&self.propagator, clause);
        signs.note_above(&self.propagator, level);
        activity.put_back_above(&self.propagator, level);
        self.propagator.retract(level);
        self.order.back(level);
        self.propagator.add(number, clause)?;
        Ok(())
    }

    /// Learns the empty clause from one that is false at level 0.
    pub fn refute(
        &mut self,
        alloc: Global,
        over: &Crossed,
        conflict: u64,
    ) -> Result<(), OutOfMemory>
        requires crossed { IsCrossed over.now }
        requires search { IsSearch over.now self.old }
        requires conflict { IsAnswered self.old.propagator (Conflict conflict) }
        requires level { present_level self.old.propagator.trail ≡ 0 }
        requires room { next_number self.old.log < 2 ^ 64 - 1 }
        ensures round { OnOk result (IsRoundOver over.now self.new.log) }
        ensures refutes { OnOk result (IsTrue (is_refutation self.new.log.steps)) }
        ensures filled { OnOk result (IsTrue (are_filled_before_last self.new.log.steps)) }
        ensures first { OnOk result (self.new.log.first ≡ self.old.log.first) }
        ensures steps { OnOk result (length self.new.log.steps ≡ length self.old.log.steps + 1) }
    {
        let turns = analyze(alloc, &self.propagator, conflict, &mut self.marks)?;
        self.log.push_chain(over, conflict, &turns)?;
        Ok(())
    }

    /// The steps that learned clauses.
    pub fn into_log(self) -> Log
        ensures { result ≡ self.log }
    {
        self.log
    }

    /// The assignment of the trail.
    pub fn model(&self, alloc: Global, over: &Crossed) -> Result<Partial, OutOfMemory>
        requires crossed { IsCrossed over.now }
        requires search { IsSearch over.now self.now }
        requires quiet { IsTrue (is_quiet (assigned self.now.propagator) self.now.propagator.clauses) }
        requires set { IsTrue (are_set self.now.propagator.trail self.now.order.vars.items) }
        ensures { IfOk result (IsModelOver over.now) }
    {
        Ok(values_of(alloc, over.formula.vars(), &self.propagator)?)
    }
}

// An unset variable: the one that the activity suggests, and else the first one of the order.
fn next_unset(
    over: &Crossed,
    p: &Propagator,
    order: &mut Order,
    activity: &mut Activity,
) -> Option<u32>
    requires crossed { IsCrossed over.now }
    requires formula { p.now.vars ≡ over.now.formula.now.vars }
    requires variables { IsTrue (list_all (may_decide over.now) order.old.vars.items) }
    requires placed { IsPlacedAt p.now.trail order.old }
    ensures vars { order.new.vars ≡ order.old.vars }
    ensures placed { IsPlacedAt p.now.trail order.new }
    ensures within { IfSome result (λ v. IsTrue (may_decide over.now v)) }
    ensures unset { IfSome result (λ v. IsNone (assigned p.now v)) }
    ensures all { IsNone result → IsTrue (are_set p.now.trail order.new.vars.items) }
{
    if let Some(v) = activity.suggest(over, p) {
        return Some(v);
    }
    order.next(p)
}

// The values along the trail.
fn values_of(alloc: Global, n: u32, p: &Propagator) -> Result<Partial, OutOfMemory>
    requires vars { n ≡ p.now.vars }
    requires small { n ≤ 1000000 }
    ensures vars { IfOk result (λ values. length values ≡ n) }
    ensures values { IfOk result (λ values. (v : ℕ) → v < n → slice_index_or values v None ≡ assigned p.now (v + 1)) }
{
    let mut values = Partial::new(alloc, n)?;
    for l in p.trail() {
        values.put(*l);
    }
    Ok(values)
}
