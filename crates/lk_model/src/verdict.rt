//! What a check or a reader of documents says.
ghost use Rattle.std.specs.Prelude.{◌≡◌};
ghost use Rattle.lk_model.specs.declared.verdict.ReadStop.TheVariants.{OutOfMemory as MemoryOut};

use crate::list::OutOfMemory;

/// Which check fails.
#[derive(Clone, Copy, PartialEq, Eq, Debug)]
pub enum Kind {
    OtherFormula,
    KeptClause,
    ProtectedSet,
    NotAutarky,
    NotExactlyRemoved,
    BadOrder,
    BadOwner,
    BadSign,
    BadStage,
    BadPair,
    BadRow,
    BadDual,
    BadBalance,
    BadUnit,
    BadCount,
    BadStep,
    NotBlocked,
    NotLearned,
    ModelFails,
    BadWithout,
}

/// The first failing check, and the first place at which it fails: a position, a variable, the number
/// of a step or an index, as the kind says.
#[derive(Clone, Copy, PartialEq, Eq, Debug)]
pub struct Why {
    pub kind: Kind,
    pub place: u64,
}

/// Why no document is read: the first line with which the text of none of the documents that are read
/// goes on, counted from 1; or that memory ran out.
#[derive(Clone, Copy, PartialEq, Eq, Debug)]
pub enum ReadStop {
    Line(u64),
    OutOfMemory,
}

impl From<OutOfMemory> for ReadStop {
    ghost from_gives = { λ _ stop. stop ≡ MemoryOut };

    fn from(_e: OutOfMemory) -> ReadStop {
        ReadStop::OutOfMemory
    }
}
