//! What the matching reducer finds in a copy, in the formula's numbers.
ghost use Rattle.std.specs.Prelude.{◌≡◌, map};
ghost use Rattle.part_copy.specs.Renamed.{renamed_matching, renamed_own, renamed_row};

use lk_model::{List, MatchRow, MatchingResult, Own};
use result_renaming::{nth, positions_at};

/// The result with the positions of a part and the names of its variables.
pub(crate) fn renamed(part: &[u32], names: &[u32], found: MatchingResult) -> MatchingResult
    ensures { result ≡ renamed_matching part.now names.now found }
{
    MatchingResult {
        kept: positions_at(part, found.kept),
        own: own_lines(part, names, found.own),
        rows: rows(part, names, found.rows),
    }
}

// The own lines, renamed.
fn own_lines(part: &[u32], names: &[u32], own: List<Own>) -> List<Own>
    ensures { result ≡ map (renamed_own part.now names.now) own }
{
    let mut lines = own.into_vec();
    for line in lines.iter_mut() {
        *line = renamed_own(part, names, *line);
    }
    List::from_vec(lines)
}

// An own line, renamed.
fn renamed_own(part: &[u32], names: &[u32], line: Own) -> Own
    ensures { result ≡ renamed_own part.now names.now line }
{
    Own {
        pos: nth(part, u64::from(line.pos)),
        var: nth(names, u64::from(line.var)),
    }
}

// The rows, renamed.
fn rows(part: &[u32], names: &[u32], rows: List<MatchRow>) -> List<MatchRow>
    ensures { result ≡ map (renamed_row part.now names.now) rows }
{
    let mut rows = rows.into_vec();
    for row in rows.iter_mut() {
        *row = renamed_row(part, names, *row);
    }
    List::from_vec(rows)
}

// A row, renamed. Its rank is no number of the formula.
fn renamed_row(part: &[u32], names: &[u32], row: MatchRow) -> MatchRow
    ensures { result ≡ renamed_row part.now names.now row }
{
    MatchRow {
        var: nth(names, u64::from(row.var)),
        own: nth(part, u64::from(row.own)),
        escape: nth(part, u64::from(row.escape)),
        rank: row.rank,
    }
}
