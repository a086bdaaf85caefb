//! The lines of the class pure.
ghost use Rattle.std.specs.Prelude.{◌≡◌, ◌++◌, OnOk, map};
ghost use Rattle.std.specs.List.{flat_map};
ghost use Rattle.lk_model.specs.Texts.PlainText.{line};
ghost use Rattle.lk_model.specs.Documents.Text.{class_lines, pair_line};
ghost use Rattle.lk_model.specs.declared.document.Body.TheVariants.{Pure};

use super::entry::put_entry_line;
use line_text::put_literal_line;
use lk_model::{Lit, OutOfMemory, Pair};

/// Appends the order, and a line for each pair.
pub(crate) fn put_pure(out: &mut Vec<u8>, order: &[Lit], pairs: &[Pair]) -> Result<(), OutOfMemory>
    ensures { OnOk result (out.new.items
        ≡ out.old.items ++ flat_map line (class_lines (Pure order.now pairs.now))) }
{
    put_literal_line(out, b"order", order)?;
    put_pairs(out, pairs)
}

fn put_pairs(out: &mut Vec<u8>, pairs: &[Pair]) -> Result<(), OutOfMemory>
    ensures { OnOk result (out.new.items
        ≡ out.old.items ++ flat_map line (map pair_line pairs.now)) }
{
    for pair in pairs {
        put_pair(out, *pair)?;
    }
    Ok(())
}

fn put_pair(out: &mut Vec<u8>, pair: Pair) -> Result<(), OutOfMemory>
    ensures { OnOk result (out.new.items ≡ out.old.items ++ line (pair_line pair)) }
{
    put_entry_line(out, b"pair", &[pair.var, pair.with], pair.against)
}
