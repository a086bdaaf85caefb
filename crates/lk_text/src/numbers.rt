//! Numbers in decimal digits.
ghost use Rattle.std.specs.Prelude.{◌≡◌, ◌≤◌, ◌++◌, ◌^◌, min, not, length, OnOk, OnErr, IfSome, option_map};
ghost use Rattle.std.specs.Fmt.{signed_decimal};
ghost use Rattle.std.specs.Str.{bytes_eq};
ghost use Rattle.lk_model.specs.Texts.NumberWords.{natural, number, plain_number};
ghost use Rattle.lk_text.specs.Kinds.{kind_of, if_in_range, begins_with_zero};

use itoa::Buffer;
use lk_model::OutOfMemory;

/// What a word is as a number word: an optional `-` and one or more digits, where leading zeros are
/// allowed, and a `-` before the value 0 is not.
#[derive(Clone, Copy, PartialEq, Eq, Debug)]
pub enum NumberWord {
    /// The word is no number word.
    Not,
    /// Its value lies outside ±(2^127 - 1).
    Past,
    /// Its value.
    Is(i128),
}

/// From here on the numbers do not fit.
const PAST: u128 = 1 << 127;

/// Each number of this many digits fits 64 bits.
const SHORT: usize = 18;

/// Appends the shortest decimal spelling of a number: digits without a leading zero, after a
/// `-` where the number is below 0. Without memory for it nothing is appended.
pub fn put_i128(out: &mut Vec<u8>, x: i128) -> Result<(), OutOfMemory>
    ensures ok { OnOk result (out.new.items ≡ out.old.items ++ signed_decimal x) }
    ensures err { OnErr result (out.new.items ≡ out.old.items) }
{
    let mut buffer = Buffer::new();
    out.extend_from_slice(buffer.format(x).as_bytes())?;
    Ok(())
}

/// The kind of a word as a number word, and its value.
pub fn classify(word: &[u8]) -> NumberWord
    ensures { result ≡ kind_of (number word.now) }
{
    match word.split_first() {
        Some((b'-', digits)) => match read_natural(digits) {
            None | Some(0) => NumberWord::Not,
            Some(n) if n >= PAST => NumberWord::Past,
            Some(n) => NumberWord::Is(-(n as i128)),
        },
        _ => match read_natural(word) {
            None => NumberWord::Not,
            Some(n) if n >= PAST => NumberWord::Past,
            Some(n) => NumberWord::Is(n as i128),
        },
    }
}

/// The value of one or more digits, or 2^127 where it is greater.
pub fn read_natural(digits: &[u8]) -> Option<u128>
    ensures { result ≡ option_map (λ n. min n (2 ^ 127)) (natural digits.now) }
{
    if digits.len() <= SHORT {
        Some(u128::from(read_short(digits)?))
    } else {
        read_long(digits)
    }
}

/// The value of one or more digits that fit 64 bits.
fn read_short(digits: &[u8]) -> Option<u64>
    requires { length digits.now ≤ 18 }
    ensures { result ≡ natural digits.now }
{
    if digits.is_empty() {
        return None;
    }
    let mut value = 0u64;
    for digit in digits {
        if !digit.is_ascii_digit() {
            return None;
        }
        value = value * 10 + u64::from(*digit - b'0');
    }
    Some(value)
}

/// The value of any number of digits, or 2^127 where it is greater.
fn read_long(digits: &[u8]) -> Option<u128>
    ensures { result ≡ option_map (λ n. min n (2 ^ 127)) (natural digits.now) }
{
    if digits.is_empty() {
        return None;
    }
    let mut value = 0u128;
    for digit in digits {
        if !digit.is_ascii_digit() {
            return None;
        }
        value = value
            .saturating_mul(10)
            .saturating_add(u128::from(*digit - b'0'))
            .min(PAST);
    }
    Some(value)
}

/// The number within ±(2^127 - 1) whose shortest spelling the word is.
pub fn read_plain(word: &[u8]) -> Option<i128>
    ensures { result ≡ if_in_range (plain_number word.now) }
{
    match classify(word) {
        NumberWord::Is(x) => {
            if has_leading_zero(word) {
                None
            } else {
                Some(x)
            }
        }
        _ => None,
    }
}

/// Whether a number word is not the shortest spelling of its number.
fn has_leading_zero(word: &[u8]) -> bool
    ensures { IfSome (if_in_range (number word.now)) (λ x. result ≡ not (bytes_eq word.now (signed_decimal x))) }
{
    let Some((first, rest)) = word.split_first() else {
        return false;
    };
    if *first == b'-' {
        begins_with_zero(rest)
    } else {
        begins_with_zero(word)
    }
}

/// Whether a zero stands before another digit.
fn begins_with_zero(digits: &[u8]) -> bool
    ensures { result ≡ begins_with_zero digits.now }
{
    digits.len() > 1 && digits[0] == b'0'
}
