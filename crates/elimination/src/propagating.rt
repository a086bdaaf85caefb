//! What unit clauses lead to.
use crate::eliminator::Eliminator;
use lk_model::{Lit, OutOfMemory};

/// Finds the unit clauses that follow by unit propagation, lets the clauses die that they satisfy, and frees the others of
/// false literals, until nothing changes or the elimination is over.
pub(crate) fn propagate_all(e: &mut Eliminator) -> Result<(), OutOfMemory> {
    // Each pass but the last finds a unit clause.
    for _ in 0..e.table.clauses.vars() + 1 {
        propagate(e)?;
        satisfy(e);
        if e.is_over() || e.cleaned >= e.units.len() {
            return Ok(());
        }
        clean(e)?;
    }
    Ok(())
}

/// Finds the unit clauses.
pub(crate) fn propagate(e: &mut Eliminator) -> Result<(), OutOfMemory> {
    for _ in 0..e.table.clauses.vars() + 1 {
        match e.units.at(e.propagated) {
            Some(l) if !e.is_refuted => {
                e.propagated = e.propagated.saturating_add(1);
                close(e, l.negated())?;
            }
            _ => return Ok(()),
        }
    }
    Ok(())
}

/// Goes through the clauses of a literal that is false.
fn close(e: &mut Eliminator, l: Lit) -> Result<(), OutOfMemory> {
    let count = e.table.list_len(l);
    e.table.allowance.spend(count);
    for i in 0..count {
        let number = e.table.number_at(l, i);
        if e.table.close_one(number) && !e.is_refuted && is_unit(e, number) {
            e.derive_rest(number)?;
        }
    }
    Ok(())
}

/// Whether all literals of a clause are false but for one at most, which has no value.
fn is_unit(e: &mut Eliminator, number: u32) -> bool {
    let clause = e.table.clause(number);
    let mut open = 0usize;
    for l in clause {
        if e.units.is_true(*l) {
            return false;
        }
        if !e.units.is_false(*l) {
            open = open.saturating_add(1);
        }
    }
    open <= 1
}

/// Lets the clauses die that unit clauses satisfy, but for these.
pub(crate) fn satisfy(e: &mut Eliminator) {
    for place in e.satisfied..e.units.len() {
        if let Some(l) = e.units.at(place) {
            kill_others(e, l);
        }
    }
    e.satisfied = e.units.len();
}

/// Lets all clauses with a literal die but its unit clause.
fn kill_others(e: &mut Eliminator, l: Lit) {
    let unit = e.units.number(l.var());
    let count = e.table.list_len(l);
    e.table.allowance.spend(count);
    for i in 0..count {
        let number = e.table.number_at(l, i);
        if number != unit {
            e.table.kill(number);
        }
    }
}

/// Frees the clauses against the true literals.
fn clean(e: &mut Eliminator) -> Result<(), OutOfMemory> {
    for place in e.cleaned..e.units.len() {
        if e.is_over() {
            return Ok(());
        }
        if let Some(l) = e.units.at(place) {
            free_all(e, l.negated())?;
        }
        e.cleaned = place + 1;
    }
    Ok(())
}

/// Replaces each live clause of a false literal by one without its false literals.
fn free_all(e: &mut Eliminator, l: Lit) -> Result<(), OutOfMemory> {
    let alloc = e.alloc;
    let numbers = e.table.live(alloc, l)?;
    for number in numbers.as_slice() {
        if e.is_over() {
            return Ok(());
        }
        if e.table.is_live(*number) && e.derive_rest(*number)? {
            e.table.kill(*number);
        }
    }
    Ok(())
}
