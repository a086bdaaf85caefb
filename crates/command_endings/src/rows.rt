//! Lines of a word and a number.
ghost use Rattle.std.specs.Prelude.{◌≡◌, ◌++◌, map, flat_map, OnOk, IfOk};
ghost use Rattle.command_endings.specs.Commands.Report.{row_line};
ghost use Rattle.command_endings.specs.Counting.{seen};

use lk_model::OutOfMemory;
use lk_text::put_i128;
use std::alloc::Global;

/// A word and a number, which make a line.
#[derive(Clone, Copy)]
pub(crate) struct Row {
    pub(crate) word: &'static str,
    pub(crate) number: u64,
}

/// The text of rows, a line for each.
pub(crate) fn text_of(alloc: Global, rows: &[Row]) -> Result<Vec<u8>, OutOfMemory>
    ensures { IfOk result (λ text. text.items ≡ flat_map row_line (map seen rows.now)) }
{
    let mut text = Vec::new(alloc);
    for row in rows {
        put_row(&mut text, *row)?;
    }
    Ok(text)
}

/// Appends the line of a row.
fn put_row(text: &mut Vec<u8>, row: Row) -> Result<(), OutOfMemory>
    ensures { OnOk result (text.new.items ≡ text.old.items ++ row_line (seen row)) }
{
    text.extend_from_slice(row.word.as_bytes())?;
    text.push(b' ')?;
    put_i128(text, i128::from(row.number))?;
    Ok(text.push(b'\n')?)
}
