//! The lines of an unfinished document.
ghost use Rattle.std.specs.Prelude.{◌≡◌, ◌++◌, ◌∷◌, [], OnOk, codes};
ghost use Rattle.std.specs.List.{flat_map};
ghost use Rattle.lk_model.specs.Texts.PlainText.{line, number_words};
ghost use Rattle.lk_model.specs.Documents.Text.{comment, document_lines};
ghost use Rattle.lk_model.specs.declared.document.Document.TheVariants.{Unfinished};

use super::front::put_first_lines;
use formula_text::put_formula;
use line_text::{put, put_number};
use lk_model::{OpenDocument, OutOfMemory};
use round_text::put_rounds;

/// Appends the lines of an unfinished document.
pub(crate) fn put_unfinished(out: &mut Vec<u8>, d: &OpenDocument) -> Result<(), OutOfMemory>
    ensures { OnOk result (out.new.items
        ≡ out.old.items ++ flat_map line (document_lines (Unfinished d.now))) }
{
    put_first_lines(out, b"unfinished", d.vars, d.clauses, &d.protect)?;
    put_learned(out, d.learned)?;
    put_rounds(out, d.rounds.as_slice())?;
    put_formula(out, &d.texts)
}

/// Appends the line that says how many clauses were learned.
fn put_learned(out: &mut Vec<u8>, learned: u64) -> Result<(), OutOfMemory>
    ensures { OnOk result (out.new.items
        ≡ out.old.items ++ line (comment (codes "learned") (number_words (learned ∷ [])))) }
{
    put(out, b"c learned ")?;
    put_number(out, learned, b'\n')
}
