//! The words of a line between its spaces.
ghost use Rattle.std.specs.Prelude.{◌≡◌, ◌≤◌, ◌+◌, ◌∷◌, ℕ, length, slice_index, slice_range, ◌<◌, IsTrue, IfSome};
ghost use Rattle.std.specs.Prelude.{List, option_map};
ghost use Rattle.lk_model.specs.Texts.NumberWords.{plain_number};
ghost use Rattle.std.specs.Borrow.{Bor};
ghost use Rattle.line_text.specs.Fields.{fields, after, has_no_space, rest_fields, number_within, literal_within};
ghost use Rattle.line_text.specs.Fields.{two_within, one_within};

use lk_model::Lit;
use lk_text::read_plain;

/// The bytes up to the first space, and those after it where there is one.
pub fn first_field(line: &[u8]) -> (&[u8], Option<&[u8]>)
    ensures words { fields line.now ≡ result.0.now ∷ rest_fields result.1 }
    ensures shorter { IfSome result.1 (λ rest. length rest.now < length line.now) }
{
    let end = field_end(line);
    if end == line.len() {
        (line, None)
    } else {
        (&line[..end], Some(&line[end + 1..]))
    }
}

/// The place of the first space, or the end.
fn field_end(line: &[u8]) -> usize
    ensures high { result ≤ length line.now }
    ensures passed { IsTrue (has_no_space (slice_range line.now 0 result)) }
    ensures stopped { result < length line.now → slice_index line.now result ≡ 32 }
{
    for i in 0..line.len() {
        if line[i] == b' ' {
            return i;
        }
    }
    line.len()
}

/// What stands after these two words, where at least one word does.
pub fn behind<'a>(line: &'a [u8], first: &[u8], second: &[u8]) -> Option<&'a [u8]>
    ensures { option_map (λ (r : Bor (List ℕ)). fields r.now) result ≡ after first.now second.now (fields line.now) }
{
    let (one, Some(rest)) = first_field(line) else {
        return None;
    };
    if one != first {
        return None;
    }
    let (other, Some(rest)) = first_field(rest) else {
        return None;
    };
    if other != second {
        return None;
    }
    Some(rest)
}

/// The number from the first to the second one whose shortest spelling the word is.
pub fn number_in(word: &[u8], low: u32, high: u32) -> Option<u32>
    ensures { result ≡ number_within low high (plain_number word.now) }
{
    let Some(number) = read_plain(word) else {
        return None;
    };
    let Ok(number) = u32::try_from(number) else {
        return None;
    };
    if low <= number && number <= high {
        Some(number)
    } else {
        None
    }
}

/// The number above the last one and up to the greatest whose shortest spelling the word is.
pub fn number_above(word: &[u8], last: u32, high: u32) -> Option<u32>
    ensures { result ≡ number_within (last + 1) high (plain_number word.now) }
{
    let Some(number) = read_plain(word) else {
        return None;
    };
    let Ok(number) = u32::try_from(number) else {
        return None;
    };
    if last < number && number <= high {
        Some(number)
    } else {
        None
    }
}

/// The number of 64 bits from the first to the second one whose shortest spelling the word is.
pub fn wide_in(word: &[u8], low: u64, high: u64) -> Option<u64>
    ensures { result ≡ number_within low high (plain_number word.now) }
{
    let Some(number) = read_plain(word) else {
        return None;
    };
    let Ok(number) = u64::try_from(number) else {
        return None;
    };
    if low <= number && number <= high {
        Some(number)
    } else {
        None
    }
}

/// The literal over the variables from 1 to n whose shortest spelling the word is.
pub fn literal_in(word: &[u8], n: u32) -> Option<Lit>
    requires { n ≤ 1000000 }
    ensures { result ≡ literal_within n (plain_number word.now) }
{
    let Some(number) = read_plain(word) else {
        return None;
    };
    let Ok(number) = i32::try_from(number) else {
        return None;
    };
    let Some(literal) = Lit::new(number) else {
        return None;
    };
    if literal.var() <= n {
        Some(literal)
    } else {
        None
    }
}

/// The two numbers of a line, up to these.
pub fn two_numbers(line: &[u8], first: u32, second: u32) -> Option<(u32, u32)>
    ensures { result ≡ two_within first second (fields line.now) }
{
    let (x, Some(rest)) = first_field(line) else {
        return None;
    };
    let (y, behind) = first_field(rest);
    if behind.is_some() {
        return None;
    }
    let x = number_in(x, 0, first)?;
    let y = number_in(y, 0, second)?;
    Some((x, y))
}

/// The one number of a line, up to this one.
pub fn one_number(line: &[u8], high: u64) -> Option<u64>
    ensures { result ≡ one_within high (fields line.now) }
{
    let (x, behind) = first_field(line);
    if behind.is_some() {
        return None;
    }
    wide_in(x, 0, high)
}
