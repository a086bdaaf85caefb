//! What the checker reports.
ghost use Rattle.std.specs.Prelude.{◌≡◌, ◌+◌, ◌-◌, ◌≤◌, ◌++◌, length, decimal};
ghost use Rattle.lk_model.specs.Texts.PlainText.{line};
ghost use Rattle.lk_model.specs.Documents.KindWords.{kind_word};
ghost use Rattle.lean_checker.specs.Verdicts.{verdict_words, HasLine};

use itoa::Buffer;
use lk_model::{Kind, Why};
use std::marker::Model;

/// What the checks say of a document and a formula.
#[derive(Clone, Copy, PartialEq, Eq)]
pub enum Verdict {
    /// A finished document without a failing check.
    Accepted,
    /// An unfinished document without a failing check; how many clauses it learned.
    Unfinished(u64),
    /// The first failing check.
    No(Why),
}

/// A line of text: the first `len` of the bytes, with byte 10 at the end. The other bytes are 0.
#[derive(Clone, Copy)]
pub struct VerdictText {
    pub bytes: [u8; 64],
    pub len: usize,
}

/// The line that states a verdict: `accepted`, `unfinished` with how many clauses were learned, or
/// `refused` with the kind and the place. It takes no memory.
pub fn put_verdict(v: &Verdict) -> VerdictText
    ensures { HasLine result (line (verdict_words v.now)) }
{
    let mut text = Line {
        bytes: [0; 64],
        len: 0,
    };
    match v {
        Verdict::Accepted => text.put(b"accepted"),
        Verdict::Unfinished(learned) => {
            text.put(b"unfinished ");
            text.put_number(*learned);
        }
        Verdict::No(why) => {
            text.put(b"refused ");
            text.put(kind_word(why.kind));
            text.put(b" ");
            text.put_number(why.place);
        }
    }
    text.put(b"\n");
    VerdictText {
        bytes: text.bytes,
        len: text.len,
    }
}

/// A line that grows, up to 64 bytes.
#[derive(Drop)]
struct Line {
    bytes: [u8; 64],
    len: usize,
}

impl Model for Line {
    ghost use Rattle.std.specs.Prelude.{◌≡◌, ◌≤◌, ℕ, ◌-◌, ◌++◌, List, take};

    ghost Value = { List ℕ };

    ghost view = { λ t. take t.len t.bytes };

    ghost use Rattle.lean_checker.specs.Lines.{IsLine};

    ghost invariant = { λ t. IsLine t.bytes t.len };
}

impl Line {
    /// Appends some bytes.
    fn put(&mut self, piece: &[u8])
        requires { length self.old + length piece.now ≤ 64 }
        ensures { self.new ≡ self.old ++ piece.now }
    {
        let end = self.len + piece.len();
        self.bytes[self.len..end].copy_from_slice(piece);
        self.len = end;
    }

    /// Appends a number in decimal digits.
    fn put_number(&mut self, number: u64)
        requires { length self.old + 20 ≤ 64 }
        ensures line { self.new ≡ self.old ++ decimal number }
        ensures short { length self.new ≤ length self.old + 20 }
    {
        let mut buffer = Buffer::new();
        self.put(buffer.format(number).as_bytes());
    }
}

/// The word of a kind.
fn kind_word(kind: Kind) -> &'static [u8]
    ensures word { result.now ≡ kind_word kind }
    ensures short { length result.now ≤ 19 }
{
    match kind {
        Kind::OtherFormula => b"other-formula",
        Kind::KeptClause => b"kept-clause",
        Kind::ProtectedSet => b"protected-set",
        Kind::NotAutarky => b"not-autarky",
        Kind::NotExactlyRemoved => b"not-exactly-removed",
        Kind::BadOrder => b"bad-order",
        Kind::BadOwner => b"bad-owner",
        Kind::BadSign => b"bad-sign",
        Kind::BadStage => b"bad-stage",
        Kind::BadPair => b"bad-pair",
        Kind::BadRow => b"bad-row",
        Kind::BadDual => b"bad-dual",
        Kind::BadBalance => b"bad-balance",
        Kind::BadUnit => b"bad-unit",
        Kind::BadCount => b"bad-count",
        Kind::BadStep => b"bad-step",
        Kind::NotBlocked => b"not-blocked",
        Kind::NotLearned => b"not-learned",
        Kind::ModelFails => b"model-fails",
        Kind::BadWithout => b"bad-without",
    }
}
