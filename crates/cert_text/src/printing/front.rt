//! The first lines of a document.
ghost use Rattle.std.specs.Prelude.{◌≡◌, ◌++◌, ◌∷◌, [], OnOk, codes};
ghost use Rattle.std.specs.List.{flat_map};
ghost use Rattle.lk_model.specs.Texts.PlainText.{line};
ghost use Rattle.lk_model.specs.Documents.Text.{comment, first_lines, protect_lines, version};

use formula_text::put_size_line;
use line_text::{put_keyword, put_number_line, put_word};
use lk_model::{List, OutOfMemory};

/// Appends the lines of the format and of the sizes, and that of the protected variables where there is
/// one. The word is that of a class, or says that the document is unfinished.
pub(crate) fn put_first_lines(
    out: &mut Vec<u8>,
    word: &[u8],
    vars: u32,
    clauses: u32,
    protect: &Option<List<u32>>,
) -> Result<(), OutOfMemory>
    ensures { OnOk result (out.new.items
        ≡ out.old.items ++ flat_map line (first_lines word.now vars clauses protect.now)) }
{
    put_format_line(out, version(protect), word)?;
    put_size_line(out, vars, clauses)?;
    put_protect_lines(out, protect)
}

/// The version of the format.
fn version(protect: &Option<List<u32>>) -> &'static [u8]
    ensures { result.now ≡ version protect.now }
{
    match protect {
        None => b"1",
        Some(_) => b"2",
    }
}

fn put_format_line(out: &mut Vec<u8>, version: &[u8], word: &[u8]) -> Result<(), OutOfMemory>
    ensures { OnOk result (out.new.items
        ≡ out.old.items ++ line (comment (codes "leank") (version.now ∷ word.now ∷ []))) }
{
    put_keyword(out, b"leank")?;
    put_word(out, version, b' ')?;
    put_word(out, word, b'\n')
}

fn put_protect_lines(out: &mut Vec<u8>, protect: &Option<List<u32>>) -> Result<(), OutOfMemory>
    ensures { OnOk result (out.new.items
        ≡ out.old.items ++ flat_map line (protect_lines protect.now)) }
{
    match protect {
        None => Ok(()),
        Some(vars) => put_number_line(out, b"protect", vars.as_slice()),
    }
}
