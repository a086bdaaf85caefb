//! Lines of one entry each: pairs, own clauses, rows and duals.
ghost use Rattle.std.specs.Prelude.{◌≡◌};
ghost use Rattle.line_text.specs.Fields.{fields};
ghost use Rattle.cert_text.specs.Entries.{pair_within, own_within, row_within, dual_within};

use line_text::{first_field, number_above, number_in};
use lk_model::{Dual, MatchRow, Own, Pair};
use lk_text::read_plain;

/// The pair of a line, for a variable above the last one and up to n, and for two positions up to m.
pub(crate) fn pair_in(line: &[u8], last: u32, n: u32, m: u32) -> Option<Pair>
    ensures { result ≡ pair_within last n m (fields line.now) }
{
    let (var, Some(rest)) = first_field(line) else {
        return None;
    };
    let (with, Some(rest)) = first_field(rest) else {
        return None;
    };
    let (against, behind) = first_field(rest);
    if behind.is_some() {
        return None;
    }
    Some(Pair {
        var: number_above(var, last, n)?,
        with: number_in(with, 1, m)?,
        against: number_in(against, 1, m)?,
    })
}

/// The own clause of a line, for a position above the last one and up to m, and for a variable up to n.
pub(crate) fn own_in(line: &[u8], last: u32, n: u32, m: u32) -> Option<Own>
    ensures { result ≡ own_within last n m (fields line.now) }
{
    let (pos, Some(rest)) = first_field(line) else {
        return None;
    };
    let (var, behind) = first_field(rest);
    if behind.is_some() {
        return None;
    }
    Some(Own {
        pos: number_above(pos, last, m)?,
        var: number_in(var, 1, n)?,
    })
}

/// The row of a line, for a variable above the last one and up to n, for two positions up to m, and a rank.
pub(crate) fn row_in(line: &[u8], last: u32, n: u32, m: u32) -> Option<MatchRow>
    ensures { result ≡ row_within last n m (fields line.now) }
{
    let (var, Some(rest)) = first_field(line) else {
        return None;
    };
    let (own, Some(rest)) = first_field(rest) else {
        return None;
    };
    let (escape, Some(rest)) = first_field(rest) else {
        return None;
    };
    let (rank, behind) = first_field(rest);
    if behind.is_some() {
        return None;
    }
    Some(MatchRow {
        var: number_above(var, last, n)?,
        own: number_in(own, 1, m)?,
        escape: number_in(escape, 1, m)?,
        rank: number_in(rank, 0, u32::MAX)?,
    })
}

/// The dual of a line, for a position above the last one and up to m.
pub(crate) fn dual_in(line: &[u8], last: u32, m: u32) -> Option<Dual>
    ensures { result ≡ dual_within last m (fields line.now) }
{
    let (pos, Some(rest)) = first_field(line) else {
        return None;
    };
    let (y, behind) = first_field(rest);
    if behind.is_some() {
        return None;
    }
    Some(Dual {
        pos: number_above(pos, last, m)?,
        y: read_plain(y)?,
    })
}
