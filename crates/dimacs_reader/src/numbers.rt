//! The lines of numbers after the problem line.
ghost use Rattle.std.specs.Prelude.{◌≡◌, ◌<◌, ◌+◌, ◌∷◌, [], ◌++◌, ℕ, List, length, OnOk, IfOk, IfErr, true, false};
ghost use Rattle.lk_model.specs.Texts.Lines.{is_newline, is_blank};
ghost use Rattle.dimacs_reader.specs.Faults.{ForFault};
ghost use Rattle.dimacs_reader.specs.ReadStates.{Fits};
ghost use Rattle.dimacs_reader.specs.Stages.{StandsInNumbers, IsMet};

use crate::bytes::{ByteKind, byte_kind};
use crate::clauses::{ReadState, add_word, is_short};
use crate::stop::{Stop, fault_at};
use crate::word::{WordSoFar, word_of, word_with};
use lk_model::{Fault, FaultKind};

/// Where in a line a text stands after the problem line.
#[derive(Clone, Copy)]
pub(crate) enum NumberLine {
    /// The line has only blanks so far.
    Start,
    Comment,
    /// After a word and a blank.
    Gap,
    /// Within a word.
    Word(WordSoFar),
    /// After the end mark, where nothing counts.
    Ended,
}

/// Takes the next byte, after `before` bytes.
pub(crate) fn number_step(
    state: &mut ReadState,
    line: NumberLine,
    byte: u8,
    before: usize,
) -> Result<NumberLine, Stop>
    requires fits { Fits state.old }
    requires room { before < usize.MAX }
    ensures fits { OnOk result (Fits state.new) }
    ensures ok { (fed : List ℕ) → length fed ≡ before → StandsInNumbers fed state.old line →
        IfOk result (StandsInNumbers (fed ++ byte ∷ []) state.new) }
    ensures fault { (fed : List ℕ) → length fed ≡ before → StandsInNumbers fed state.old line →
        IfErr result (λ s. ForFault s (IsMet fed byte)) }
{
    match byte_kind(byte) {
        ByteKind::Newline => end_line(state, line, before),
        ByteKind::Blank => with_blank(state, line, before),
        ByteKind::Word => Ok(with_byte(state, line, byte, before)?),
    }
}

/// Takes the end of the line, after `before` bytes.
fn end_line(state: &mut ReadState, line: NumberLine, before: usize) -> Result<NumberLine, Stop>
    requires { Fits state.old }
    ensures fits { OnOk result (Fits state.new) }
    ensures ok { (fed : List ℕ) → length fed ≡ before → StandsInNumbers fed state.old line →
        IfOk result (StandsInNumbers (fed ++ 10 ∷ []) state.new) }
    ensures fault { (fed : List ℕ) → length fed ≡ before → StandsInNumbers fed state.old line →
        IfErr result (λ s. ForFault s (IsMet fed 10)) }
{
    match line {
        NumberLine::Ended => Ok(NumberLine::Ended),
        NumberLine::Word(word) => {
            add_word(state, word, before)?;
            Ok(NumberLine::Start)
        }
        _ => Ok(NumberLine::Start),
    }
}

/// Takes a blank, after `before` bytes.
fn with_blank(state: &mut ReadState, line: NumberLine, before: usize) -> Result<NumberLine, Stop>
    requires { Fits state.old }
    ensures fits { OnOk result (Fits state.new) }
    ensures ok { (fed : List ℕ) → (blank : ℕ) → is_blank blank ≡ true → is_newline blank ≡ false → length fed ≡ before →
        StandsInNumbers fed state.old line
        → IfOk result (StandsInNumbers (fed ++ blank ∷ []) state.new) }
    ensures fault { (fed : List ℕ) → (blank : ℕ) → is_blank blank ≡ true → is_newline blank ≡ false →
        length fed ≡ before → StandsInNumbers fed state.old line
        → IfErr result (λ s. ForFault s (IsMet fed blank)) }
{
    match line {
        NumberLine::Word(word) => {
            add_word(state, word, before)?;
            Ok(NumberLine::Gap)
        }
        other => Ok(other),
    }
}

/// Takes a byte of a word, after `before` bytes.
fn with_byte(
    state: &ReadState,
    line: NumberLine,
    byte: u8,
    before: usize,
) -> Result<NumberLine, Fault>
    requires room { before < usize.MAX }
    requires no_newline { is_newline byte ≡ false }
    requires no_blank { is_blank byte ≡ false }
    requires fits { Fits state.now }
    ensures ok { (fed : List ℕ) → length fed ≡ before → StandsInNumbers fed state.now line →
        IfOk result (StandsInNumbers (fed ++ byte ∷ []) state.now) }
    ensures fault { (fed : List ℕ) → length fed ≡ before → StandsInNumbers fed state.now line →
        IfErr result (IsMet fed byte) }
{
    match line {
        NumberLine::Start => begun(state, byte, before + 1),
        NumberLine::Gap => Ok(NumberLine::Word(word_of(byte))),
        NumberLine::Word(word) => Ok(NumberLine::Word(word_with(word, byte))),
        other => Ok(other),
    }
}

/// The line whose first byte that is no blank is this one.
fn begun(state: &ReadState, byte: u8, place: usize) -> Result<NumberLine, Fault>
    requires no_newline { is_newline byte ≡ false }
    requires no_blank { is_blank byte ≡ false }
    requires fits { Fits state.now }
    ensures ok { (fed : List ℕ) → length fed + 1 ≡ place → StandsInNumbers fed state.now NumberLine.Start →
        IfOk result (StandsInNumbers (fed ++ byte ∷ []) state.now) }
    ensures fault { (fed : List ℕ) → length fed + 1 ≡ place → StandsInNumbers fed state.now NumberLine.Start →
        IfErr result (IsMet fed byte) }
{
    if byte == b'c' {
        Ok(NumberLine::Comment)
    } else if byte == b'p' {
        Err(fault_at(FaultKind::SecondHeader, place))
    } else if byte != b'%' {
        Ok(NumberLine::Word(word_of(byte)))
    } else if is_short(state) {
        Err(fault_at(FaultKind::TooFewClauses, place))
    } else {
        Ok(NumberLine::Ended)
    }
}
