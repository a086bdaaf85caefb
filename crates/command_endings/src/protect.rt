//! The formula of a request, with the protected variables that its options list.
ghost use Rattle.std.specs.Prelude.{◌≡◌, IfOk, option_map};
ghost use Rattle.lk_model.specs.Texts.NumberWords.{natural};
ghost use Rattle.reductions.specs.Protecting.{IsProblem};
ghost use Rattle.command_endings.specs.Listing.{variable_named, variables_named};
ghost use Rattle.command_words.specs.OptionRows.{text_of};
ghost use Rattle.command_words.specs.Settings.{listed};

use lk_model::{Formula, List, OutOfMemory};
use lk_text::{NumberWord, classify};
use reductions::Problem;
use std::alloc::Global;

/// A formula with the variables of a list protected, numbers with commas between them.
pub(crate) fn problem_of(
    alloc: Global,
    formula: Formula,
    list: Option<&str>,
) -> Result<Problem, OutOfMemory>
    ensures { IfOk result (IsProblem formula (option_map listed (text_of list.entry))) }
{
    match list {
        Some(list) => {
            let named = variables_named(alloc, formula.vars(), list)?;
            Problem::new(alloc, formula, Some(named))
        }
        None => Problem::new(alloc, formula, None),
    }
}

/// The variables up to n among the numbers of a list, in its order.
fn variables_named(alloc: Global, n: u32, list: &str) -> Result<List<u32>, OutOfMemory>
    ensures { IfOk result (λ vars. vars ≡ variables_named n list.now) }
{
    Ok(List::from_vec(
        list.split(',')
            .filter_map(|part| variable_named(part, n))
            .collect(alloc)?,
    ))
}

/// The number that a word writes, if it is a variable up to n.
fn variable_named(word: &str, n: u32) -> Option<u32>
    ensures { result ≡ variable_named n (natural word.now) }
{
    match classify(word.as_bytes()) {
        NumberWord::Is(number) if 1 <= number && number <= i128::from(n) => Some(number as u32),
        _ => None,
    }
}
