//! The lines of the class matching.
ghost use Rattle.std.specs.Prelude.{◌≡◌, ◌++◌, OnOk, map};
ghost use Rattle.std.specs.List.{flat_map};
ghost use Rattle.lk_model.specs.Texts.PlainText.{line};
ghost use Rattle.lk_model.specs.Documents.Text.{class_lines, own_line, row_line};
ghost use Rattle.lk_model.specs.declared.document.Body.TheVariants.{Matching};

use super::entry::put_entry_line;
use lk_model::{MatchRow, OutOfMemory, Own};

/// Appends a line for each owned variable, and then one for each row.
pub(crate) fn put_matching(
    out: &mut Vec<u8>,
    own: &[Own],
    rows: &[MatchRow],
) -> Result<(), OutOfMemory>
    ensures { OnOk result (out.new.items
        ≡ out.old.items ++ flat_map line (class_lines (Matching own.now rows.now))) }
{
    put_owns(out, own)?;
    put_rows(out, rows)
}

fn put_owns(out: &mut Vec<u8>, owns: &[Own]) -> Result<(), OutOfMemory>
    ensures { OnOk result (out.new.items
        ≡ out.old.items ++ flat_map line (map own_line owns.now)) }
{
    for own in owns {
        put_own(out, *own)?;
    }
    Ok(())
}

fn put_own(out: &mut Vec<u8>, own: Own) -> Result<(), OutOfMemory>
    ensures { OnOk result (out.new.items ≡ out.old.items ++ line (own_line own)) }
{
    put_entry_line(out, b"own", &[own.pos], own.var)
}

fn put_rows(out: &mut Vec<u8>, rows: &[MatchRow]) -> Result<(), OutOfMemory>
    ensures { OnOk result (out.new.items
        ≡ out.old.items ++ flat_map line (map row_line rows.now)) }
{
    for row in rows {
        put_row(out, *row)?;
    }
    Ok(())
}

fn put_row(out: &mut Vec<u8>, row: MatchRow) -> Result<(), OutOfMemory>
    ensures { OnOk result (out.new.items ≡ out.old.items ++ line (row_line row)) }
{
    put_entry_line(out, b"row", &[row.var, row.own, row.escape], row.rank)
}
