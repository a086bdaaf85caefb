//! Why an edit is not made.
use lk_model::OutOfMemory;

/// Why an edit is not made: no live clause has the number, a limit would be passed, or memory ran out.
#[derive(Clone, Copy, PartialEq, Eq, Debug)]
pub enum EditStop {
    NoClause,
    Limit,
    OutOfMemory,
}

impl From<OutOfMemory> for EditStop {
    ghost use Rattle.std.specs.Prelude.{◌≡◌};
    ghost use Rattle.match_edits.specs.declared.stop.EditStop.TheVariants.{OutOfMemory as MemoryOut};

    ghost from_gives = { λ _ e. e ≡ MemoryOut };

    fn from(_e: OutOfMemory) -> EditStop {
        EditStop::OutOfMemory
    }
}
