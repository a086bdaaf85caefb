//! What the words of each command are made of.
ghost use Rattle.std.specs.Prelude.{◌≡◌, None, map};
ghost use Rattle.command_words.specs.OptionRows.{known};
ghost use Rattle.command_words.specs.Shapes.{words_of, number_of, inputs_of, keys_of, reducing_inputs, reducing_keys};

use crate::command::Command;
use crate::key::{CONFLICTS, Key, PIVOTS, PROTECT, WORKERS};
use crate::range::Range;

/// What an input is.
#[derive(Clone, Copy)]
pub enum Grammar {
    /// A formula, as DIMACS.
    Formula,
    /// A document of a reduction, or an unfinished one.
    Document,
    /// A model for the variables of the formula before it.
    Model,
    /// An answer for the variables and the clauses of the formula before it: a model of it, a refutation, or a
    /// minimally unsatisfiable core.
    Answer,
    /// Edits of the formula before it: clauses that are added and numbers of clauses that are removed.
    Edits,
}

/// What the words of a command are made of: the words at its front, the numbers of which one stands after them for
/// the commands that take one, its inputs, and its options.
#[derive(Clone, Copy)]
pub(crate) struct Shape {
    pub(crate) words: &'static [&'static str],
    pub(crate) numbers: Option<Range>,
    pub(crate) inputs: &'static [Grammar],
    pub(crate) keys: &'static [Key],
}

impl Command {
    /// What its words are made of.
    pub(crate) fn shape(self) -> Shape
        ensures words { map (λ w. w.now) result.words.now ≡ words_of self }
        ensures numbers { result.numbers ≡ number_of self }
        ensures inputs { result.inputs.now ≡ inputs_of self }
        ensures keys { map known result.keys.now ≡ keys_of self }
    {
        match self {
            Command::ReducePure => reducing(&["reduce", "pure"]),
            Command::ReduceMatching => reducing(&["reduce", "matching"]),
            Command::ReduceLinear => reducing(&["reduce", "linear"]),
            Command::ReduceGeneral => reducing(&["reduce", "general"]),
            Command::Check => Shape {
                words: &["check"],
                numbers: None,
                inputs: &[Grammar::Formula, Grammar::Document],
                keys: &[WORKERS],
            },
            Command::Extend => Shape {
                words: &["extend"],
                numbers: None,
                inputs: &[Grammar::Formula, Grammar::Document, Grammar::Model],
                keys: &[],
            },
            Command::Report => Shape {
                words: &["report"],
                numbers: None,
                inputs: &[Grammar::Formula],
                keys: &[],
            },
            Command::Demo => Shape {
                words: &["demo"],
                numbers: Some(Range {
                    least: 0,
                    greatest: u64::MAX,
                }),
                inputs: &[],
                keys: &[],
            },
            Command::Solve => Shape {
                words: &["solve"],
                numbers: None,
                inputs: &[Grammar::Formula],
                keys: &[CONFLICTS, WORKERS],
            },
            Command::Verify => Shape {
                words: &["verify"],
                numbers: None,
                inputs: &[Grammar::Formula, Grammar::Answer],
                keys: &[],
            },
            Command::Deficiency => Shape {
                words: &["deficiency"],
                numbers: None,
                inputs: &[Grammar::Formula],
                keys: &[],
            },
            Command::Edits => Shape {
                words: &["edits"],
                numbers: None,
                inputs: &[Grammar::Formula, Grammar::Edits],
                keys: &[],
            },
            Command::Mus => Shape {
                words: &["mus"],
                numbers: None,
                inputs: &[Grammar::Formula],
                keys: &[CONFLICTS],
            },
        }
    }
}

/// The shape of a command `reduce` of these words.
fn reducing(words: &'static [&'static str]) -> Shape
    ensures words { result.words.now ≡ words.now }
    ensures numbers { result.numbers ≡ None }
    ensures inputs { result.inputs.now ≡ reducing_inputs }
    ensures keys { map known result.keys.now ≡ reducing_keys }
{
    Shape {
        words,
        numbers: None,
        inputs: &[Grammar::Formula],
        keys: &[CONFLICTS, PIVOTS, WORKERS, PROTECT],
    }
}
