//! Words after the problem line.
ghost use Rattle.std.specs.Prelude.{◌≡◌, ◌≤◌, ◌∷◌, [], ◌++◌, ℕ, List, IfSome, IsNone, None};
ghost use Rattle.lk_model.specs.Texts.NumberWords.{number};
ghost use Rattle.dimacs_reader.specs.Numbers.{IsNumber, IsOver};
ghost use Rattle.dimacs_reader.specs.Words.{IsWordSoFar};

use crate::bytes::{digit_of, with_digit};
use lk_model::Lit;

/// A word after the problem line, as far as it was read.
#[derive(Clone, Copy)]
pub(crate) enum WordSoFar {
    /// A minus sign alone.
    Minus,
    /// Digits, perhaps after a minus sign, and their value, or 2^32 - 1 where that is more.
    Digits { is_negative: bool, value: u32 },
    /// Nothing that a number may begin with.
    Other,
}

/// The word that a byte begins.
pub(crate) fn word_of(byte: u8) -> WordSoFar
    ensures { IsWordSoFar (byte ∷ []) result }
{
    match digit_of(byte) {
        Some(value) => WordSoFar::Digits {
            is_negative: false,
            value,
        },
        None if byte == b'-' => WordSoFar::Minus,
        None => WordSoFar::Other,
    }
}

/// The word with one more byte.
pub(crate) fn word_with(word: WordSoFar, byte: u8) -> WordSoFar
    ensures { (bytes : List ℕ) → IsWordSoFar bytes word → IsWordSoFar (bytes ++ byte ∷ []) result }
{
    let Some(digit) = digit_of(byte) else {
        return WordSoFar::Other;
    };
    match word {
        WordSoFar::Minus => WordSoFar::Digits {
            is_negative: true,
            value: digit,
        },
        WordSoFar::Digits { is_negative, value } => WordSoFar::Digits {
            is_negative,
            value: with_digit(value, digit),
        },
        WordSoFar::Other => WordSoFar::Other,
    }
}

/// What a number is after the problem line.
#[derive(Drop)]
pub(crate) enum Number {
    /// The 0 that closes a clause.
    Zero,
    Literal(Lit),
    /// Its variable is not among those from 1 to n.
    Past,
}

/// The number that a word writes, over the variables from 1 to n.
pub(crate) fn number_of(word: WordSoFar, n: u32) -> Option<Number>
    requires { n ≤ 1000000 }
    ensures over { IfSome result (IsOver n) }
    ensures number { (bytes : List ℕ) → IsWordSoFar bytes word → IfSome result (IsNumber n (number bytes)) }
    ensures none { (bytes : List ℕ) → IsWordSoFar bytes word → IsNone result → number bytes ≡ None }
{
    let WordSoFar::Digits { is_negative, value } = word else {
        return None;
    };
    if value == 0 {
        return if is_negative {
            None
        } else {
            Some(Number::Zero)
        };
    }
    if value > n {
        return Some(Number::Past);
    }
    let number = value as i32;
    match Lit::new(if is_negative { -number } else { number }) {
        Some(lit) => Some(Number::Literal(lit)),
        None => unreachable!(),
    }
}
