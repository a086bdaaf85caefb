//! The words of the command line.
ghost use Rattle.std.specs.Prelude.{◌≡◌, ◌≤◌, Some, length, map, drop, IfOk, MatchResult};
ghost use Rattle.command_words.specs.Shapes.{inputs_of};
ghost use Rattle.command_words.specs.Lawful.{request_of, number_first, number_words, IsRefusedAt};
ghost use Rattle.command_words.specs.Requests.{common, IsCommandOf, IsUnknownAt, asked};

use crate::command::{COMMANDS, Command};
use crate::options::{Options, options_of};
use crate::range::Range;

/// What lawful words ask for.
#[derive(Clone, Copy)]
pub struct Request<'a> {
    /// The command.
    pub command: Command,
    /// A name for each of its inputs, in their order.
    pub names: &'a [&'a str],
    /// Its number, where it takes one, and its options.
    pub options: Options<'a>,
}

/// What lawful words ask for, or the number of the refused word, counted from 1: the least number of
/// first words with which no lawful list begins, or the number after the last where one begins with all.
pub fn request_of<'a>(words: &'a [&'a str]) -> Result<Request<'a>, usize>
    ensures asked { MatchResult result
        (λ request. request_of (map (λ w. w.now) words.now) ≡ Some (asked request))
        (IsRefusedAt (map (λ w. w.now) words.now)) }
    ensures names { IfOk result (λ request. length request.names.now ≡ length (inputs_of request.command)) }
{
    let command = command_of(words)?;
    let shape = command.shape();
    let front = shape.words.len();
    let Some(number) = number_at(shape.numbers, words, front) else {
        return Err(front + 1);
    };
    let start = front + number_words(shape.numbers);
    let end = start + shape.inputs.len();
    if words.len() < end {
        return Err(words.len() + 1);
    }
    match options_of(command, &words[end..]) {
        Ok(options) => Ok(Request {
            command,
            names: &words[start..end],
            options: Options { number, ..options },
        }),
        Err(place) => Err(end + place + 1),
    }
}

/// How many words the number of a command takes.
fn number_words(numbers: Option<Range>) -> usize
    ensures value { result ≡ number_words numbers }
    ensures few { result ≤ 1 }
{
    if numbers.is_some() { 1 } else { 0 }
}

/// The number that the word at a place writes, if it is one of these; 0 where no number is taken.
fn number_at(numbers: Option<Range>, words: &[&str], place: usize) -> Option<u64>
    ensures { result ≡ number_first numbers (drop place (map (λ w. w.now) words.now)) }
{
    match numbers {
        None => Some(0),
        Some(range) => range.number(words.get(place)?),
    }
}

/// The command whose words stand at the front, or the number of the first word that none goes on with.
fn command_of(words: &[&str]) -> Result<Command, usize>
    ensures { MatchResult result
        (IsCommandOf (map (λ w. w.now) words.now))
        (IsUnknownAt (map (λ w. w.now) words.now)) }
{
    let mut known = 0;
    for command in COMMANDS {
        let front = command.shape().words;
        let count = common(words, front);
        if count == front.len() {
            return Ok(command);
        }
        if known < count {
            known = count;
        }
    }
    Err(known + 1)
}

/// How many words stand at the front of both.
fn common(words: &[&str], front: &[&str]) -> usize
    ensures { result ≡ common (map (λ w. w.now) words.now) (map (λ w. w.now) front.now) }
{
    let mut count = 0;
    while count < words.len() && count < front.len() {
        if words[count] != front[count] {
            return count;
        }
        count += 1;
    }
    count
}
