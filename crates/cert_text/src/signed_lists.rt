//! Lists of signed numbers, each after the number of a variable or a position, that the word 0 closes.
ghost use Rattle.std.specs.Prelude.{◌≡◌, ◌+◌, [], IfOk};
ghost use Rattle.lk_model.specs.Texts.NumberWords.{plain_number};
ghost use Rattle.line_text.specs.Fields.{fields, number_within};
ghost use Rattle.cert_text.specs.Entries.{if_weight};
ghost use Rattle.line_text.specs.FieldLists.{twos};
ghost use Rattle.cert_text.specs.LinearLines.{weight_by, share_by, weight_within, share_within, unit_within};

use line_text::{CLOSING, first_field, number_above};
use lk_model::{List, OutOfMemory, Share, Unit, Weight};
use lk_text::read_plain;
use std::alloc::Global;

/// The number other than 0 and within ±(2^127 - 1) whose shortest spelling the word is.
fn weight_in(word: &[u8]) -> Option<i128>
    ensures { result ≡ if_weight (plain_number word.now) }
{
    let Some(x) = read_plain(word) else {
        return None;
    };
    if x == 0 { None } else { Some(x) }
}

/// The weight of two words, for a variable above the last one and up to n.
fn entry_in(word: &[u8], other: &[u8], last: u32, n: u32) -> Option<Weight>
    ensures { result ≡ weight_by (number_within (last + 1) n (plain_number word.now))
        (if_weight (plain_number other.now)) }
{
    Some(Weight {
        var: number_above(word, last, n)?,
        x: weight_in(other)?,
    })
}

/// The share of two words, for a position above the last one and up to m.
fn share_in(word: &[u8], other: &[u8], last: u32, m: u32) -> Option<Share>
    ensures { result ≡ share_by (number_within (last + 1) m (plain_number word.now))
        (if_weight (plain_number other.now)) }
{
    Some(Share {
        pos: number_above(word, last, m)?,
        z: weight_in(other)?,
    })
}

/// The weights of a line, whose variables ascend up to n.
pub(crate) fn weights_in(
    alloc: Global,
    line: &[u8],
    n: u32,
) -> Result<Option<List<Weight>>, OutOfMemory>
    ensures { IfOk result (λ weights. weights ≡ twos (weight_within n) [] (fields line.now)) }
{
    let mut weights = List::new(alloc);
    let mut last = 0;
    let mut rest = line;
    'words: loop {
        let (word, behind) = first_field(rest);
        let Some(behind) = behind else {
            return Ok((word == CLOSING).then_some(weights));
        };
        let (other, behind) = first_field(behind);
        let Some(entry) = entry_in(word, other, last, n) else {
            return Ok(None);
        };
        let Some(behind) = behind else {
            return Ok(None);
        };
        weights.push(entry)?;
        last = entry.var;
        rest = behind;
    }
}

/// The shares of a line, whose positions ascend up to m.
fn shares_in(alloc: Global, line: &[u8], m: u32) -> Result<Option<List<Share>>, OutOfMemory>
    ensures { IfOk result (λ shares. shares ≡ twos (share_within m) [] (fields line.now)) }
{
    let mut shares = List::new(alloc);
    let mut last = 0;
    let mut rest = line;
    'words: loop {
        let (word, behind) = first_field(rest);
        let Some(behind) = behind else {
            return Ok((word == CLOSING).then_some(shares));
        };
        let (other, behind) = first_field(behind);
        let Some(share) = share_in(word, other, last, m) else {
            return Ok(None);
        };
        let Some(behind) = behind else {
            return Ok(None);
        };
        shares.push(share)?;
        last = share.pos;
        rest = behind;
    }
}

/// The unit of a line, for a variable above the last one and up to n, and for positions up to m.
pub(crate) fn unit_in(
    alloc: Global,
    line: &[u8],
    last: u32,
    n: u32,
    m: u32,
) -> Result<Option<Unit>, OutOfMemory>
    ensures { IfOk result (λ unit. unit ≡ unit_within last n m (fields line.now)) }
{
    let (var, Some(rest)) = first_field(line) else {
        return Ok(None);
    };
    let (d, behind) = first_field(rest);
    let Some(rest) = behind else {
        return Ok(None);
    };
    let Some(var) = number_above(var, last, n) else {
        return Ok(None);
    };
    let Some(d) = read_plain(d) else {
        return Ok(None);
    };
    let Some(shares) = shares_in(alloc, rest, m)? else {
        return Ok(None);
    };
    Ok(Some(Unit { var, d, shares }))
}
