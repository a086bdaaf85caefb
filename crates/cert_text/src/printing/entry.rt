//! A line of one entry, without a closing 0.
ghost use Rattle.std.specs.Prelude.{◌≡◌, ◌++◌, ◌∷◌, [], OnOk};
ghost use Rattle.lk_model.specs.Texts.PlainText.{line, number_words};
ghost use Rattle.lk_model.specs.Documents.Text.{comment};
ghost use Rattle.line_text.specs.Spaced.{spaced};

use line_text::{put_keyword, put_number};
use lk_model::OutOfMemory;

/// Appends a comment line of numbers, the last of which ends it.
pub(crate) fn put_entry_line(
    out: &mut Vec<u8>,
    keyword: &[u8],
    numbers: &[u32],
    last: u32,
) -> Result<(), OutOfMemory>
    ensures { OnOk result (out.new.items
        ≡ out.old.items ++ line (comment keyword.now (number_words (numbers.now ++ last ∷ [])))) }
{
    put_keyword(out, keyword)?;
    put_numbers(out, numbers)?;
    put_number(out, u64::from(last), b'\n')
}

/// Appends numbers, each with a space after it.
fn put_numbers(out: &mut Vec<u8>, numbers: &[u32]) -> Result<(), OutOfMemory>
    ensures { OnOk result (out.new.items ≡ out.old.items ++ spaced (number_words numbers.now)) }
{
    for n in numbers {
        put_number(out, u64::from(*n), b' ')?;
    }
    Ok(())
}
