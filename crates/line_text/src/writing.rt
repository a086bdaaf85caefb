//! Words and lines, appended to a text.
ghost use Rattle.std.specs.Prelude.{◌≡◌, ◌++◌, ◌∷◌, [], OnOk, codes, map};
ghost use Rattle.std.specs.Fmt.{decimal, signed_decimal};
ghost use Rattle.lk_model.specs.Texts.PlainText.{line, ended, literal_words, number_words};
ghost use Rattle.lk_model.specs.Documents.Text.{comment};
ghost use Rattle.line_text.specs.Spaced.{spaced};

use lk_model::{Lit, OutOfMemory};
use lk_text::put_i128;

/// Appends these bytes. Fails only if memory runs out.
pub fn put(out: &mut Vec<u8>, text: &[u8]) -> Result<(), OutOfMemory>
    ensures { OnOk result (out.new.items ≡ out.old.items ++ text.now) }
{
    out.extend_from_slice(text)?;
    Ok(())
}

/// Appends a word, and the byte that follows it. Fails only if memory runs out.
pub fn put_word(out: &mut Vec<u8>, word: &[u8], after: u8) -> Result<(), OutOfMemory>
    ensures { OnOk result (out.new.items ≡ out.old.items ++ (word.now ++ after ∷ [])) }
{
    out.extend_from_slice(word)?;
    out.push(after)?;
    Ok(())
}

/// Appends a signed number, and the byte that follows it. Fails only if memory runs out.
pub fn put_signed(out: &mut Vec<u8>, x: i128, after: u8) -> Result<(), OutOfMemory>
    ensures { OnOk result (out.new.items ≡ out.old.items ++ (signed_decimal x ++ after ∷ [])) }
{
    put_i128(out, x)?;
    out.push(after)?;
    Ok(())
}

/// Appends a number, and the byte that follows it. Fails only if memory runs out.
pub fn put_number(out: &mut Vec<u8>, n: u64, after: u8) -> Result<(), OutOfMemory>
    ensures { OnOk result (out.new.items ≡ out.old.items ++ (decimal n ++ after ∷ [])) }
{
    put_signed(out, i128::from(n), after)
}

/// Appends a literal, and the byte that follows it. Fails only if memory runs out.
pub fn put_literal(out: &mut Vec<u8>, l: Lit, after: u8) -> Result<(), OutOfMemory>
    ensures { OnOk result (out.new.items ≡ out.old.items ++ (signed_decimal l ++ after ∷ [])) }
{
    put_signed(out, i128::from(l.get()), after)
}

/// Appends numbers, each with a space after it.
fn put_numbers(out: &mut Vec<u8>, numbers: &[u32]) -> Result<(), OutOfMemory>
    ensures { OnOk result (out.new.items ≡ out.old.items ++ spaced (number_words numbers.now)) }
{
    for n in numbers {
        put_number(out, u64::from(*n), b' ')?;
    }
    Ok(())
}

/// Appends literals, each with a space after it. Fails only if memory runs out.
pub fn put_literals(out: &mut Vec<u8>, literals: &[Lit]) -> Result<(), OutOfMemory>
    ensures { OnOk result (out.new.items
        ≡ out.old.items ++ spaced (map signed_decimal literals.now)) }
{
    for l in literals {
        put_literal(out, *l, b' ')?;
    }
    Ok(())
}

/// Appends a number and a signed one, each with a space after it. Fails only if memory runs out.
pub fn put_entry(out: &mut Vec<u8>, n: u32, x: i128) -> Result<(), OutOfMemory>
    ensures { OnOk result (out.new.items
        ≡ out.old.items ++ spaced (decimal n ∷ signed_decimal x ∷ [])) }
{
    put_number(out, u64::from(n), b' ')?;
    put_signed(out, x, b' ')
}

/// Appends the first two words of a comment line, each with a space after it. Fails only if memory runs out.
pub fn put_keyword(out: &mut Vec<u8>, keyword: &[u8]) -> Result<(), OutOfMemory>
    ensures { OnOk result (out.new.items ≡ out.old.items ++ spaced (codes "c" ∷ keyword.now ∷ [])) }
{
    put(out, b"c ")?;
    put(out, keyword)?;
    put(out, b" ")
}

/// Appends a comment line of numbers, closed by 0. Fails only if memory runs out.
pub fn put_number_line(
    out: &mut Vec<u8>,
    keyword: &[u8],
    numbers: &[u32],
) -> Result<(), OutOfMemory>
    ensures { OnOk result (out.new.items
        ≡ out.old.items ++ line (comment keyword.now (ended (number_words numbers.now)))) }
{
    put_keyword(out, keyword)?;
    put_numbers(out, numbers)?;
    put_closing_zero(out)
}

/// Appends a comment line of literals, closed by 0. Fails only if memory runs out.
pub fn put_literal_line(
    out: &mut Vec<u8>,
    keyword: &[u8],
    literals: &[Lit],
) -> Result<(), OutOfMemory>
    ensures { OnOk result (out.new.items
        ≡ out.old.items ++ line (comment keyword.now (literal_words literals.now))) }
{
    put_keyword(out, keyword)?;
    put_clause_line(out, literals)
}

/// Appends a line of literals alone, closed by 0. Fails only if memory runs out.
pub fn put_clause_line(out: &mut Vec<u8>, literals: &[Lit]) -> Result<(), OutOfMemory>
    ensures { OnOk result (out.new.items ≡ out.old.items ++ line (literal_words literals.now)) }
{
    put_literals(out, literals)?;
    put_closing_zero(out)
}

/// Appends the word 0, which closes a list, and the end of its line. Fails only if memory runs out.
pub fn put_closing_zero(out: &mut Vec<u8>) -> Result<(), OutOfMemory>
    ensures { OnOk result (out.new.items ≡ out.old.items ++ codes "0\n") }
{
    put(out, b"0\n")
}
