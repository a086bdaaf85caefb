//! Variables that go.
use crate::allowance::{MOST_LITERALS, MOST_OCCURRENCES};
use crate::eliminator::{Eliminator, Removed};
use crate::propagating::{propagate, propagate_all, satisfy};
use lk_model::{Lit, OutOfMemory};

// Rounds end by themselves long before.
const MOST_ROUNDS: u32 = 1000;

/// Eliminates variables in rounds, by their numbers, until nothing goes. A variable is tried again if one of its clauses
/// came or went.
pub(crate) fn eliminate_all(e: &mut Eliminator) -> Result<(), OutOfMemory> {
    propagate_all(e)?;
    for _ in 0..MOST_ROUNDS {
        if e.is_over() || !eliminate_round(e)? {
            break;
        }
    }
    propagate(e)?;
    satisfy(e);
    Ok(())
}

/// Tries each touched variable: whether one went.
fn eliminate_round(e: &mut Eliminator) -> Result<bool, OutOfMemory> {
    let mut has_gone = false;
    let vars = e.table.clauses.vars();
    e.table.allowance.spend(vars as usize);
    for v in 1..vars + 1 {
        if e.is_over() {
            break;
        }
        if e.table.take_touched(v) && eliminate(e, Lit::from_var(v, true))? {
            has_gone = true;
            propagate_all(e)?;
        }
    }
    Ok(has_gone)
}

/// Eliminates the variable of a literal, if it occurs, has no value, and has not more resolvents than clauses: whether it
/// went.
fn eliminate(e: &mut Eliminator, l: Lit) -> Result<bool, OutOfMemory> {
    let count = e.table.count(l).saturating_add(e.table.count(l.negated()));
    if count == 0 || count > MOST_OCCURRENCES || e.units.value(l.var()).is_some() {
        return Ok(false);
    }
    let alloc = e.alloc;
    let with = e.table.live(alloc, l)?;
    let against = e.table.live(alloc, l.negated())?;
    let pairs = match pairs(e, l, with.as_slice(), against.as_slice())? {
        Some(pairs) => pairs,
        None => return Ok(false),
    };
    if !derive_all(e, l, pairs.as_slice())? {
        return Ok(false);
    }
    remove(e, l, with, against)?;
    Ok(true)
}

/// The clauses with a literal and those against it whose resolvents are no tautologies, in pairs. None where these are more
/// than the clauses, or one is too long.
fn pairs(
    e: &mut Eliminator,
    l: Lit,
    with: &[u32],
    against: &[u32],
) -> Result<Option<Vec<(u32, u32)>>, OutOfMemory> {
    let most = with.len().saturating_add(against.len());
    let mut pairs = Vec::new(e.alloc);
    for number in with {
        if e.is_over() || !add_pairs(e, l, *number, against, &mut pairs)? || pairs.len() > most {
            return Ok(None);
        }
    }
    Ok(Some(pairs))
}

/// Adds the pairs of a clause: false where a resolvent is too long.
fn add_pairs(
    e: &mut Eliminator,
    l: Lit,
    number: u32,
    against: &[u32],
    pairs: &mut Vec<(u32, u32)>,
) -> Result<bool, OutOfMemory> {
    e.marks.mark_only(e.table.clause(number));
    let own = e.table.clause(number).len().saturating_sub(1);
    e.table.allowance.spend(own);
    for other in against {
        let count = e.table.clause(*other).len();
        e.table.allowance.spend(count);
        match added(e, e.table.clause(*other), l.negated()) {
            Some(added) if own.saturating_add(added) > MOST_LITERALS => return Ok(false),
            Some(_) => pairs.push((number, *other))?,
            None => {}
        }
    }
    Ok(true)
}

/// How many literals a clause adds to the marked one in their resolvent, which takes one out. None where that is a
/// tautology.
fn added(e: &Eliminator, clause: &[Lit], out: Lit) -> Option<usize> {
    let mut count = 0usize;
    for l in clause {
        if *l != out {
            if e.marks.has(l.negated()) {
                return None;
            }
            if !e.marks.has(*l) {
                count = count.saturating_add(1);
            }
        }
    }
    Some(count)
}

/// Derives the resolvents of pairs. False where the elimination is over before all are there, and then their clauses stay.
fn derive_all(e: &mut Eliminator, l: Lit, pairs: &[(u32, u32)]) -> Result<bool, OutOfMemory> {
    for (one, other) in pairs {
        if !e.derive_resolvent(l, *one, *other)? || e.is_over() {
            return Ok(false);
        }
    }
    Ok(true)
}

/// Lets the clauses of a variable die, and keeps those of the rarer literal for models.
fn remove(
    e: &mut Eliminator,
    l: Lit,
    with: Vec<u32>,
    against: Vec<u32>,
) -> Result<(), OutOfMemory> {
    kill_all(e, with.as_slice());
    kill_all(e, against.as_slice());
    let removed = if with.len() <= against.len() {
        Removed {
            literal: l,
            clauses: with,
        }
    } else {
        Removed {
            literal: l.negated(),
            clauses: against,
        }
    };
    e.removed.push(removed)?;
    Ok(())
}

/// Lets clauses die.
fn kill_all(e: &mut Eliminator, numbers: &[u32]) {
    for number in numbers {
        e.table.kill(*number);
    }
}
