//! Lines of a word and numbers, closed by 0.
ghost use Rattle.std.specs.Prelude.{◌≡◌, ◌++◌, ◌∷◌, OnOk};
ghost use Rattle.lk_model.specs.Texts.PlainText.{line, ended, number_words};
ghost use Rattle.line_text.specs.Spaced.{spaced};

use line_text::{put_closing_zero, put_number, put_word};
use lk_model::OutOfMemory;

/// Appends the line of a word and these numbers, closed by 0.
#[tactic(auto, using(crate::proofs::NumberLines::closed_behind))]
pub(crate) fn put_closed(
    text: &mut Vec<u8>,
    word: &[u8],
    numbers: &[u32],
) -> Result<(), OutOfMemory>
    ensures { OnOk result (text.new.items ≡ text.old.items ++ line (word.now ∷ ended (number_words numbers.now))) }
{
    put_word(text, word, b' ')?;
    put_numbers(text, numbers)?;
    put_closing_zero(text)
}

/// Appends numbers, each with a space after it.
fn put_numbers(text: &mut Vec<u8>, numbers: &[u32]) -> Result<(), OutOfMemory>
    ensures { OnOk result (text.new.items ≡ text.old.items ++ spaced (number_words numbers.now)) }
{
    for n in numbers {
        put_number(text, u64::from(*n), b' ')?;
    }
    Ok(())
}
