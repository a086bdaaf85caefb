//! The text of a core, written.
ghost use Rattle.std.specs.Prelude.{◌≡◌, ◌++◌, None, OnOk, codes, map};
ghost use Rattle.std.specs.List.{flat_map};
ghost use Rattle.lk_model.specs.Documents.CoreText.{core_lines, without_line};
ghost use Rattle.lk_model.specs.Documents.Text.{first_lines};
ghost use Rattle.lk_model.specs.Texts.PlainText.{line};

use formula_text::{put_formula, put_size_line};
use line_text::{put, put_clause_line, put_keyword, put_number, put_number_line};
use lk_model::{MusAnswer, OutOfMemory, Without};
use round_text::put_round;

/// Appends the lines of what is written of a core. Fails only if memory runs out.
pub fn put_core(out: &mut Vec<u8>, a: &MusAnswer) -> Result<(), OutOfMemory>
    ensures { OnOk result (out.new.items ≡ out.old.items ++ flat_map line (core_lines a.now)) }
{
    put_first_lines(out, a.vars, a.clauses)?;
    put_number_line(out, b"core", a.core.as_slice())?;
    put_round(out, &a.round)?;
    put_withouts(out, a.without.as_slice())?;
    put_formula(out, &a.texts)
}

/// Appends the lines of the format and of the sizes.
fn put_first_lines(out: &mut Vec<u8>, vars: u32, clauses: u32) -> Result<(), OutOfMemory>
    ensures { OnOk result (out.new.items
        ≡ out.old.items ++ flat_map line (first_lines (codes "mus") vars clauses None)) }
{
    put(out, b"c leank 1 mus\n")?;
    put_size_line(out, vars, clauses)
}

/// Appends the literals for each position.
fn put_withouts(out: &mut Vec<u8>, withouts: &[Without]) -> Result<(), OutOfMemory>
    ensures { OnOk result (out.new.items
        ≡ out.old.items ++ flat_map line (map without_line withouts.now)) }
{
    for without in withouts {
        put_without(out, without)?;
    }
    Ok(())
}

/// Appends the line of the literals for a position.
fn put_without(out: &mut Vec<u8>, without: &Without) -> Result<(), OutOfMemory>
    ensures { OnOk result (out.new.items ≡ out.old.items ++ line (without_line without.now)) }
{
    put_keyword(out, b"without")?;
    put_number(out, u64::from(without.pos), b' ')?;
    put_clause_line(out, without.lits.as_slice())
}
