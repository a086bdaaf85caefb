//! The numbers after the problem line.
ghost use Rattle.std.specs.Prelude.{◌≡◌, ◌<◌, ◌≤◌, ◌+◌, ◌∷◌, [], ℕ, List, length, OnOk, IfOk, IfErr, IsTrue};
ghost use Rattle.lk_model.specs.Formulas.Literal.{is_literal};
ghost use Rattle.lk_model.specs.Limits.{max_vars, max_clauses};
ghost use Rattle.dimacs_reader.specs.Faults.{ForFault};
ghost use Rattle.dimacs_reader.specs.ReadStates.{Fits, HasRead, Leads, HasFault, HasFaultAtEnd, Closes, Writes, closed};
ghost use Rattle.dimacs_reader.specs.ReadStates.{with_literal, is_short_of};
ghost use Rattle.dimacs_reader.specs.Words.{IsWordSoFar};

use crate::stop::{Stop, fault_at};
use crate::word::{Number, WordSoFar, number_of};
use lk_model::{FaultKind, Formula, FormulaError, Lit, MAX_LITERALS, OpenClause, OutOfMemory};
use std::alloc::Global;

/// What was read so far: the closed clauses and the one that is open, of how many clauses the problem line
/// states, and how many numbers other than 0 were written.
#[derive(Drop)]
pub(crate) struct ReadState {
    pub formula: Formula,
    pub growing: OpenClause,
    pub stated: u32,
    pub written: u32,
}

/// Closes the clause that is open.
fn close(state: &mut ReadState) -> Result<(), OutOfMemory>
    requires fits { Fits state.old }
    requires more { length state.old.formula.clauses < state.old.stated }
    ensures { OnOk result (state.new ≡ closed state.old) }
{
    match state.formula.push_clause(state.growing.literals()) {
        Ok(()) => {
            state.growing.clear();
            Ok(())
        }
        Err(FormulaError::Limit) => unreachable!(),
        Err(FormulaError::OutOfMemory) => Err(OutOfMemory),
    }
}

/// Counts a literal, and adds it to the open clause unless that contains it.
fn add_literal(state: &mut ReadState, lit: Lit) -> Result<(), OutOfMemory>
    requires literal { IsTrue (is_literal state.old.growing.vars lit) }
    requires room { state.old.written < 20000000 }
    ensures { OnOk result (state.new ≡ with_literal lit state.old) }
{
    if !state.growing.holds(lit) {
        state.growing.push(lit)?;
    }
    state.written += 1;
    Ok(())
}

/// Takes the next word, whose last byte is at the place: a literal, or the 0 that closes a clause.
pub(crate) fn add_word(state: &mut ReadState, word: WordSoFar, place: usize) -> Result<(), Stop>
    requires { Fits state.old }
    ensures fits { OnOk result (Fits state.new) }
    ensures ok { (bytes : List ℕ) → IsWordSoFar bytes word →
        OnOk result (Leads (record { bytes = bytes; last = place } ∷ []) state.old state.new) }
    ensures fault { (bytes : List ℕ) → IsWordSoFar bytes word →
        IfErr result (λ s. ForFault s (HasFault (record { bytes = bytes; last = place } ∷ []) state.old)) }
{
    let Some(number) = number_of(word, state.growing.vars()) else {
        return Err(stop_at(FaultKind::BadToken, place));
    };
    if state.formula.len() >= state.stated {
        return Err(stop_at(FaultKind::TooManyClauses, place));
    }
    match number {
        Number::Zero => close(state)?,
        Number::Past => return Err(stop_at(FaultKind::BeyondStated, place)),
        Number::Literal(lit) => {
            if state.written >= MAX_LITERALS {
                return Err(stop_at(FaultKind::Limit, place));
            }
            add_literal(state, lit)?;
        }
    }
    Ok(())
}

/// The stop at a fault.
fn stop_at(kind: FaultKind, place: usize) -> Stop
    ensures { result ≡ Stop.Fault (record { kind = kind; place = place }) }
{
    Stop::Fault(fault_at(kind, place))
}

/// Whether there are fewer clauses than the problem line states, with the open one closed if it has a literal.
pub(crate) fn is_short(state: &ReadState) -> bool
    requires { Fits state.now }
    ensures { result ≡ is_short_of state.now }
{
    if state.growing.literals().is_empty() {
        state.formula.len() < state.stated
    } else {
        state.formula.len() + 1 < state.stated
    }
}

/// The formula of what was read, with the last clause closed where its 0 is missing.
fn close_last(state: ReadState) -> Result<Formula, OutOfMemory>
    requires { Fits state }
    ensures { IfOk result (Closes state) }
{
    let mut state = state;
    if state.growing.literals().is_empty() {
        return Ok(state.formula);
    }
    close(&mut state)?;
    Ok(state.formula)
}

/// The formula of words that end at a place.
pub(crate) fn finish(state: ReadState, end: usize) -> Result<Formula, Stop>
    requires { Fits state }
    ensures ok { IfOk result (Writes state end) }
    ensures fault { IfErr result (λ s. ForFault s (HasFaultAtEnd state end)) }
{
    let stated = state.stated;
    let formula = close_last(state)?;
    if formula.len() < stated {
        return Err(stop_at(FaultKind::TooFewClauses, end));
    }
    Ok(formula)
}

/// What was read where nothing was read after a problem line that states these numbers.
pub(crate) fn nothing_read(alloc: Global, vars: u32, stated: u32) -> Result<ReadState, OutOfMemory>
    requires vars { vars ≤ max_vars }
    requires stated { stated ≤ max_clauses }
    ensures fits { IfOk result Fits }
    ensures read { IfOk result (HasRead []) }
    ensures stated { IfOk result (λ s. (s.formula.vars ≡ vars) × (s.stated ≡ stated)) }
{
    let formula = match Formula::new(alloc, vars) {
        Ok(formula) => formula,
        Err(FormulaError::Limit) => unreachable!(),
        Err(FormulaError::OutOfMemory) => return Err(OutOfMemory),
    };
    let growing = OpenClause::new(alloc, vars)?;
    Ok(ReadState {
        formula,
        growing,
        stated,
        written: 0,
    })
}
