//! The lines of the class linear.
ghost use Rattle.std.specs.Prelude.{◌≡◌, ◌++◌, OnOk, map};
ghost use Rattle.std.specs.List.{flat_map};
ghost use Rattle.lk_model.specs.Texts.PlainText.{line};
ghost use Rattle.lk_model.specs.Documents.Text.{class_lines, dual_line, stage_line, unit_line};
ghost use Rattle.lk_model.specs.declared.document.Body.TheVariants.{Linear};
ghost use Rattle.cert_text.specs.Printed.{share_words, unit_words, weight_words};
ghost use Rattle.line_text.specs.Spaced.{spaced};

use line_text::{put, put_closing_zero, put_entry, put_keyword, put_number, put_signed};
use lk_model::{Dual, OutOfMemory, Share, Stage, Unit, Weight};

/// Appends a line for each stage, for each dual number, and for each unit.
pub(crate) fn put_linear(
    out: &mut Vec<u8>,
    stages: &[Stage],
    dual: &[Dual],
    units: &[Unit],
) -> Result<(), OutOfMemory>
    ensures { OnOk result (out.new.items
        ≡ out.old.items ++ flat_map line (class_lines (Linear stages.now dual.now units.now))) }
{
    put_stages(out, stages)?;
    put_duals(out, dual)?;
    put_units(out, units)
}

fn put_stages(out: &mut Vec<u8>, stages: &[Stage]) -> Result<(), OutOfMemory>
    ensures { OnOk result (out.new.items
        ≡ out.old.items ++ flat_map line (map stage_line stages.now)) }
{
    for stage in stages {
        put_stage(out, stage)?;
    }
    Ok(())
}

fn put_stage(out: &mut Vec<u8>, stage: &Stage) -> Result<(), OutOfMemory>
    ensures { OnOk result (out.new.items ≡ out.old.items ++ line (stage_line stage.now)) }
{
    put_keyword(out, b"stage")?;
    put_weights(out, stage.weights.as_slice())?;
    put_closing_zero(out)
}

/// Appends weights with their variables, each word with a space after it.
fn put_weights(out: &mut Vec<u8>, weights: &[Weight]) -> Result<(), OutOfMemory>
    ensures { OnOk result (out.new.items ≡ out.old.items ++ spaced (weight_words weights.now)) }
{
    for weight in weights {
        put_entry(out, weight.var, weight.x)?;
    }
    Ok(())
}

fn put_duals(out: &mut Vec<u8>, duals: &[Dual]) -> Result<(), OutOfMemory>
    ensures { OnOk result (out.new.items
        ≡ out.old.items ++ flat_map line (map dual_line duals.now)) }
{
    for dual in duals {
        put_dual(out, *dual)?;
    }
    Ok(())
}

fn put_dual(out: &mut Vec<u8>, dual: Dual) -> Result<(), OutOfMemory>
    ensures { OnOk result (out.new.items ≡ out.old.items ++ line (dual_line dual)) }
{
    put(out, b"c dual ")?;
    put_number(out, u64::from(dual.pos), b' ')?;
    put_signed(out, dual.y, b'\n')
}

fn put_units(out: &mut Vec<u8>, units: &[Unit]) -> Result<(), OutOfMemory>
    ensures { OnOk result (out.new.items
        ≡ out.old.items ++ flat_map line (map unit_line units.now)) }
{
    for unit in units {
        put_unit(out, unit)?;
    }
    Ok(())
}

fn put_unit(out: &mut Vec<u8>, unit: &Unit) -> Result<(), OutOfMemory>
    ensures { OnOk result (out.new.items ≡ out.old.items ++ line (unit_line unit.now)) }
{
    put_keyword(out, b"unit")?;
    put_unit_words(out, unit)?;
    put_closing_zero(out)
}

/// Appends the words of a unit between its keyword and its closing 0, each with a space after it.
fn put_unit_words(out: &mut Vec<u8>, unit: &Unit) -> Result<(), OutOfMemory>
    ensures { OnOk result (out.new.items ≡ out.old.items ++ spaced (unit_words unit.now)) }
{
    put_entry(out, unit.var, unit.d)?;
    put_shares(out, unit.shares.as_slice())
}

/// Appends shares with their positions, each word with a space after it.
fn put_shares(out: &mut Vec<u8>, shares: &[Share]) -> Result<(), OutOfMemory>
    ensures { OnOk result (out.new.items ≡ out.old.items ++ spaced (share_words shares.now)) }
{
    for share in shares {
        put_entry(out, share.pos, share.z)?;
    }
    Ok(())
}
