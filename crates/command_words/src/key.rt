//! The options: which word each has, and what its value is.
ghost use Rattle.std.specs.Prelude.{◌≡◌};
ghost use Rattle.command_words.specs.Settings.{is_number_of, is_value_of};
ghost use Rattle.command_words.specs.OptionRows.{known};

use crate::range::Range;

/// An option: its word, whether its value is a list of numbers or one, and the numbers that it takes.
#[derive(Clone, Copy)]
pub(crate) struct Key {
    pub(crate) word: &'static str,
    pub(crate) is_list: bool,
    pub(crate) numbers: Range,
}

/// How many clauses may be learned.
pub(crate) const CONFLICTS: Key = Key {
    word: "--conflicts",
    is_list: false,
    numbers: Range {
        least: 1,
        greatest: (1 << 63) - 1,
    },
};

/// How many pivots may be made.
pub(crate) const PIVOTS: Key = Key {
    word: "--pivots",
    is_list: false,
    numbers: Range {
        least: 0,
        greatest: (1 << 63) - 1,
    },
};

/// On how many threads the work is done at most.
pub(crate) const WORKERS: Key = Key {
    word: "--workers",
    is_list: false,
    numbers: Range {
        least: 1,
        greatest: 64,
    },
};

/// Which variables are protected.
pub(crate) const PROTECT: Key = Key {
    word: "--protect",
    is_list: true,
    numbers: Range {
        least: 1,
        greatest: 1_000_000,
    },
};

impl Key {
    /// Whether the word writes a number that the option takes.
    fn has_number(&self, word: &str) -> bool
        ensures { result ≡ is_number_of (known self.now) word.now }
    {
        self.numbers.number(word).is_some()
    }

    /// Whether the word is a value of the option.
    pub(crate) fn allows(&self, value: &str) -> bool
        ensures { result ≡ is_value_of (known self.now) value.now }
    {
        if self.is_list {
            value.split(',').all(|part| self.has_number(part))
        } else {
            self.has_number(value)
        }
    }
}
