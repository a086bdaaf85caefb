//! The lines that report verdicts.
ghost use Rattle.std.specs.Prelude.{◌≤◌};

use lean_checker::{Verdict, VerdictText, put_verdict};
use lk_model::{Kind, Why};
use std::io::{self, Write};
use std::test::Fail;

/// The kinds of failures, by their words.
const KINDS: &[(&str, Kind)] = &[
    ("other-formula", Kind::OtherFormula),
    ("kept-clause", Kind::KeptClause),
    ("protected-set", Kind::ProtectedSet),
    ("not-autarky", Kind::NotAutarky),
    ("not-exactly-removed", Kind::NotExactlyRemoved),
    ("bad-order", Kind::BadOrder),
    ("bad-owner", Kind::BadOwner),
    ("bad-sign", Kind::BadSign),
    ("bad-stage", Kind::BadStage),
    ("bad-pair", Kind::BadPair),
    ("bad-row", Kind::BadRow),
    ("bad-dual", Kind::BadDual),
    ("bad-balance", Kind::BadBalance),
    ("bad-unit", Kind::BadUnit),
    ("bad-count", Kind::BadCount),
    ("bad-step", Kind::BadStep),
    ("not-blocked", Kind::NotBlocked),
    ("not-learned", Kind::NotLearned),
    ("model-fails", Kind::ModelFails),
    ("bad-without", Kind::BadWithout),
];

/// Prints the line that reports a verdict, and says so where it is not all there is.
pub(crate) fn print_verdict<R: Print>(rt: &R, words: &str) -> Result<(), Fail> {
    match verdict_of(words) {
        Some(verdict) => Ok(print_line(rt, words, &put_verdict(&verdict))?),
        None => Err(Fail::from("no verdict")),
    }
}

fn print_line<R: Print>(rt: &R, words: &str, text: &VerdictText) -> io::Result<()>
    requires { text.now.len ≤ 64 }
{
    println!(rt; "== verdict {words}")?;
    io::writer(rt).write_all(&text.bytes[..text.len])?;
    print_more(rt, &text.bytes[text.len..])
}

fn print_more<R: Print>(rt: &R, others: &[u8]) -> io::Result<()> {
    if is_zero(others) {
        Ok(())
    } else {
        println!(rt; "-- and more")
    }
}

/// Whether each byte is 0.
fn is_zero(bytes: &[u8]) -> bool {
    for b in bytes {
        if *b != 0 {
            return false;
        }
    }
    true
}

/// The verdict of these words.
fn verdict_of(words: &str) -> Option<Verdict> {
    let (word, rest) = words.split_once(" ").unwrap_or((words, ""));
    match word {
        "accepted" => Some(Verdict::Accepted),
        "unfinished" => unfinished_of(rest),
        "refused" => refused_of(rest),
        _ => None,
    }
}

/// The verdict after this many learned clauses.
fn unfinished_of(learned: &str) -> Option<Verdict> {
    Some(Verdict::Unfinished(learned.parse().ok()?))
}

/// The refusal with the kind and the place of these words.
fn refused_of(words: &str) -> Option<Verdict> {
    let (word, place) = words.split_once(" ")?;
    let kind = kind_of(word)?;
    let place = place.parse().ok()?;
    Some(Verdict::No(Why { kind, place }))
}

/// The kind of a word.
fn kind_of(word: &str) -> Option<Kind> {
    for (known, kind) in KINDS {
        if *known == word {
            return Some(*kind);
        }
    }
    None
}
