//! Reading formulas, byte by byte.
//!
//! A text is before the end of its problem line, or after it, and each byte moves it on. So it may come in any pieces,
//! of which nothing but a number that has not ended is kept, and a fault is known at its byte.
ghost use Rattle.std.specs.Prelude.{◌≡◌, ◌<◌, ◌+◌, ◌∷◌, [], ◌++◌, ℕ, List, length, OnOk, IfOk, IfErr};
ghost use Rattle.lk_model.specs.Limits.{max_bytes};
ghost use Rattle.lk_model.specs.Texts.Dimacs.{Spells};
ghost use Rattle.lk_model.specs.Texts.Fault.{IsSettled};
ghost use Rattle.dimacs_reader.specs.Faults.{ForFault, IsRefusalOf, IsSettledAs};
ghost use Rattle.dimacs_reader.specs.ReadStates.{Fits};
ghost use Rattle.dimacs_reader.specs.Stages.{Stands, StandsInHead, StandsInNumbers, EndsAs, IsSound, IsMet, IsMetAtEnd};
ghost use Rattle.dimacs_reader.specs.Taken.{HasTaken, IsSoundReading, IsFirstOf};

use crate::clauses::{ReadState, add_word, finish, nothing_read};
use crate::head::{HeadLine, HeadStep, head_step, stated_at};
use crate::numbers::{NumberLine, number_step};
use crate::refusal::Refused;
use crate::stop::{Stop, fault_at};
use lk_model::{FaultKind, Formula};
use std::alloc::Global;

/// How many bytes a text may have.
const MAX_BYTES: usize = 1 << 30;

/// Where a text stands, and what was read of it.
#[derive(Drop)]
pub(crate) enum Stage {
    /// Before the end of the problem line.
    Head(HeadLine),
    /// After it.
    Numbers(ReadState, NumberLine),
}

/// A text of which some bytes were read.
#[derive(Drop)]
pub(crate) struct Reading {
    pub alloc: Global,
    pub bytes: usize,
    /// The line of the next byte, counted from 1.
    pub line: u64,
    pub stage: Stage,
}

/// What a reader holds.
#[derive(Drop)]
pub(crate) enum Held {
    Going(Reading),
    Stopped(Refused),
}

/// Takes the next byte, after `before` bytes.
fn step(stage: &mut Stage, alloc: Global, byte: u8, before: usize) -> Result<(), Stop>
    requires sound { IsSound stage.old }
    requires room { before < usize.MAX }
    ensures sound { OnOk result (IsSound stage.new) }
    ensures ok { (fed : List ℕ) → length fed ≡ before → Stands fed stage.old →
        OnOk result (Stands (fed ++ byte ∷ []) stage.new) }
    ensures fault { (fed : List ℕ) → length fed ≡ before → Stands fed stage.old →
        IfErr result (λ s. ForFault s (IsMet fed byte)) }
{
    match stage {
        Stage::Head(line) => match head_step(*line, byte, before)? {
            HeadStep::In(next) => *line = next,
            HeadStep::Stated { vars, clauses } => {
                *stage = Stage::Numbers(nothing_read(alloc, vars, clauses)?, NumberLine::Start);
            }
        },
        Stage::Numbers(state, line) => *line = number_step(state, *line, byte, before)?,
    }
    Ok(())
}

/// The fault of a step after `before` bytes, or else the fault that the bytes are too many.
fn fault_of_step(taken: Result<(), Stop>, before: usize) -> Result<(), Stop>
    ensures ok { OnOk result ((taken ≡ Ok tt) × (before < max_bytes)) }
    ensures fault { IfErr result (λ s. ForFault s (IsFirstOf taken before)) }
{
    match taken {
        Err(Stop::OutOfMemory) => Err(Stop::OutOfMemory),
        Err(Stop::Fault(fault)) if fault.place <= MAX_BYTES => Err(Stop::Fault(fault)),
        _ if before >= MAX_BYTES => Err(Stop::Fault(fault_at(FaultKind::TooLong, MAX_BYTES + 1))),
        other => other,
    }
}

/// Takes the next byte.
fn take(reading: &mut Reading, byte: u8) -> Result<(), Stop>
    requires { IsSoundReading reading.old }
    ensures sound { OnOk result (IsSoundReading reading.new) }
    ensures ok { (fed : List ℕ) → HasTaken fed reading.old → OnOk result (HasTaken (fed ++ byte ∷ []) reading.new) }
    ensures fault { (fed : List ℕ) → HasTaken fed reading.old →
        IfErr result (λ s. ForFault s (λ f. IsSettled (fed ++ byte ∷ []) (f.kind, reading.old.line))) }
    ensures line { IfErr result (λ _. reading.new.line ≡ reading.old.line) }
{
    let taken = step(&mut reading.stage, reading.alloc, byte, reading.bytes);
    fault_of_step(taken, reading.bytes)?;
    reading.bytes += 1;
    if byte == b'\n' {
        reading.line += 1;
    }
    Ok(())
}

/// Takes the bytes of a piece.
pub(crate) fn take_all(reading: &mut Reading, piece: &[u8]) -> Result<(), Refused>
    requires { IsSoundReading reading.old }
    ensures sound { OnOk result (IsSoundReading reading.new) }
    ensures ok { (fed : List ℕ) → HasTaken fed reading.old → OnOk result (HasTaken (fed ++ piece.now) reading.new) }
    ensures cause { (fed : List ℕ) → HasTaken fed reading.old → IfErr result (IsSettledAs (fed ++ piece.now)) }
{
    for byte in piece {
        if let Err(stop) = take(reading, *byte) {
            return Err(Refused::by(stop, reading.line));
        }
    }
    Ok(())
}

/// The formula that the bytes spell.
pub(crate) fn formula_of(reading: Reading) -> Result<Formula, Refused>
    requires { IsSoundReading reading }
    ensures ok { (fed : List ℕ) → HasTaken fed reading → IfOk result (Spells fed) }
    ensures cause { (fed : List ℕ) → HasTaken fed reading → IfErr result (IsRefusalOf fed) }
{
    let line = reading.line;
    match finished(reading) {
        Ok(formula) => Ok(formula),
        Err(stop) => Err(Refused::by(stop, line)),
    }
}

/// The formula that the bytes spell, or their fault.
fn finished(reading: Reading) -> Result<Formula, Stop>
    requires { IsSoundReading reading }
    ensures ok { (fed : List ℕ) → HasTaken fed reading → IfOk result (Spells fed) }
    ensures fault { (fed : List ℕ) → HasTaken fed reading → IfErr result (λ s. ForFault s (IsMetAtEnd fed)) }
{
    let end = reading.bytes + 1;
    finish(all_read(reading)?, end)
}

/// What was read of the whole text, or its fault.
fn all_read(reading: Reading) -> Result<ReadState, Stop>
    requires { IsSoundReading reading }
    ensures fits { IfOk result Fits }
    ensures ok { (fed : List ℕ) → HasTaken fed reading → IfOk result (EndsAs fed) }
    ensures fault { (fed : List ℕ) → HasTaken fed reading → IfErr result (λ s. ForFault s (IsMetAtEnd fed)) }
{
    let last = reading.bytes;
    match reading.stage {
        Stage::Head(line) => with_last_line(reading.alloc, line, last),
        Stage::Numbers(state, line) => with_last_word(state, line, last),
    }
}

/// What was read where the text ends before the numbers, and its last byte has this number.
fn with_last_line(alloc: Global, line: HeadLine, last: usize) -> Result<ReadState, Stop>
    requires { last < usize.MAX }
    ensures fits { IfOk result Fits }
    ensures ok { (fed : List ℕ) → length fed ≡ last → StandsInHead fed line → IfOk result (EndsAs fed) }
    ensures fault { (fed : List ℕ) → length fed ≡ last → StandsInHead fed line →
        IfErr result (λ s. ForFault s (IsMetAtEnd fed)) }
{
    let HeadLine::Problem(problem) = line else {
        return Err(Stop::Fault(fault_at(FaultKind::NoHeader, last + 1)));
    };
    let (vars, clauses) = stated_at(problem, last)?;
    Ok(nothing_read(alloc, vars, clauses)?)
}

/// What was read where the text ends in a line of numbers, and its last byte has this number.
fn with_last_word(state: ReadState, line: NumberLine, last: usize) -> Result<ReadState, Stop>
    requires { Fits state }
    ensures fits { IfOk result Fits }
    ensures ok { (fed : List ℕ) → length fed ≡ last → StandsInNumbers fed state line → IfOk result (EndsAs fed) }
    ensures fault { (fed : List ℕ) → length fed ≡ last → StandsInNumbers fed state line →
        IfErr result (λ s. ForFault s (IsMetAtEnd fed)) }
{
    let mut state = state;
    if let NumberLine::Word(word) = line {
        add_word(&mut state, word, last)?;
    }
    Ok(state)
}
