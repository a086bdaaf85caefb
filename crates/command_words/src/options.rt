//! The options of a command: pairs of an option's word and its value.
ghost use Rattle.std.specs.Prelude.{◌≡◌, ◌<◌, ◌≤◌, [], map, length, Some, IfErr, MatchResult};
ghost use Rattle.std.specs.Prelude.{option_map};
ghost use Rattle.command_words.specs.OptionPlaces.{is_word_of, is_new_at, is_value_first, refused_place};
ghost use Rattle.command_words.specs.OptionRows.{known, number_or, given_by, values_of};
ghost use Rattle.command_words.specs.Settings.{options_of, is_allowed, value_behind};
ghost use Rattle.command_words.specs.Shapes.{keys_of};

use crate::command::Command;
use crate::key::{CONFLICTS, Key, PIVOTS, PROTECT, WORKERS};
use crate::workers::Workers;
use lk_model::Budget;

/// What the words give beside the names.
#[derive(Clone, Copy)]
pub struct Options<'a> {
    /// The number of the command, 0 where it takes none.
    pub number: u64,
    /// How many clauses may be learned.
    pub conflicts: Budget,
    /// How many pivots may be made.
    pub pivots: u64,
    /// How many threads may work at a time.
    pub workers: Workers,
    /// The protected variables, numbers with commas between them, where they are listed.
    pub protect: Option<&'a str>,
}

/// The options of a command, or the place among these words, counted from 0, of the first one that
/// cannot stand there, or of a value that is missing.
pub(crate) fn options_of<'a>(command: Command, words: &[&'a str]) -> Result<Options<'a>, usize>
    ensures options { MatchResult result
        (λ o. options_of (keys_of command) (map (λ w. w.now) words.now) ≡ Some (values_of o))
        (λ i. refused_place (keys_of command) [] (map (λ w. w.now) words.now) ≡ Some i) }
    ensures within { IfErr result (λ i. i ≤ length words.now) }
{
    let keys = command.shape().keys;
    let mut place = 0;
    while place < words.len() {
        if !is_new_at(keys, words, place) {
            return Err(place);
        }
        if !has_value(keys, words[place], &words[place + 1..]) {
            return Err(place + 1);
        }
        place += 2;
    }
    Ok(given(words))
}

/// Whether the word at a place is the word of one of these options, and not given before.
fn is_new_at(keys: &[Key], words: &[&str], place: usize) -> bool
    requires { place < length words.now }
    ensures { result ≡ is_new_at (map known keys.now) (map (λ w. w.now) words.now) place }
{
    let word = words[place];
    is_word_of(keys, word) && value_behind(&words[..place], word).is_none()
}

/// Whether the word is that of one of these options.
fn is_word_of(keys: &[Key], word: &str) -> bool
    ensures { result ≡ is_word_of (map known keys.now) word.now }
{
    keys.iter().any(|key| key.word == word)
}

/// Whether a word is after the option's word that is a value of the option.
fn has_value(keys: &[Key], word: &str, behind: &[&str]) -> bool
    ensures { result ≡ is_value_first (map known keys.now) word.now (map (λ w. w.now) behind.now) }
{
    match behind.first() {
        Some(value) => is_allowed(keys, word, value),
        None => false,
    }
}

/// Whether the second word is a value of the option of the first one.
fn is_allowed(keys: &[Key], word: &str, value: &str) -> bool
    ensures { result ≡ is_allowed (map known keys.now) (word.now, value.now) }
{
    keys.iter().any(|key| key.word == word && key.allows(value))
}

/// The value after an option's word, if that is given.
fn value_behind<'a>(words: &[&'a str], option: &str) -> Option<&'a str>
    ensures { option_map (λ w. w.now) result ≡ value_behind option.now (map (λ w. w.now) words.now) }
{
    let mut place = 0;
    while place + 1 < words.len() {
        if words[place] == option {
            return Some(words[place + 1]);
        }
        place += 2;
    }
    None
}

/// What options give, with the usual number where one is not given, after no number.
fn given<'a>(words: &[&'a str]) -> Options<'a>
    ensures { values_of result ≡ given_by (map (λ w. w.now) words.now) }
{
    Options {
        number: 0,
        conflicts: Budget::new(option_number(CONFLICTS, words, 100_000)).unwrap(),
        pivots: option_number(PIVOTS, words, 100_000),
        workers: Workers::new(option_number(WORKERS, words, 1)).unwrap(),
        protect: value_behind(words, PROTECT.word),
    }
}

/// The number that is given for an option, or else the usual one.
fn option_number(key: Key, words: &[&str], usual: u64) -> u64
    ensures { result ≡ number_or (known key) usual (value_behind key.word.now (map (λ w. w.now) words.now)) }
{
    match value_behind(words, key.word) {
        Some(value) => key.numbers.number(value).unwrap_or(usual),
        None => usual,
    }
}
