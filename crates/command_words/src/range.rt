//! Ranges of numbers.
ghost use Rattle.std.specs.Prelude.{◌≡◌};
ghost use Rattle.lk_model.specs.Texts.NumberWords.{natural};
ghost use Rattle.command_words.specs.Settings.{number_within};

use lk_text::{NumberWord, classify};

/// The numbers from one to another.
#[derive(Clone, Copy)]
pub(crate) struct Range {
    pub(crate) least: u64,
    pub(crate) greatest: u64,
}

impl Range {
    /// The number that the word writes, if it is one of these.
    pub(crate) fn number(self, word: &str) -> Option<u64>
        ensures { result ≡ number_within self (natural word.now) }
    {
        match classify(word.as_bytes()) {
            NumberWord::Is(number)
                if i128::from(self.least) <= number && number <= i128::from(self.greatest) => {
                Some(number as u64)
            }
            _ => None,
        }
    }
}
