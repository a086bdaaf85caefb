//! How texts of edits are refused.
use crate::edit::EditFault;
use lk_model::OutOfMemory;

/// Why a text is none of edits, with the line of its first fault, counted from 1; or that memory ran out.
#[derive(Clone, Copy, Debug)]
pub enum EditsRefused {
    Line { line: u64, fault: EditFault },
    OutOfMemory,
}

impl From<OutOfMemory> for EditsRefused {
    ghost use Rattle.std.specs.Prelude.{◌≡◌};
    ghost use Rattle.edit_text.specs.declared.refusal.EditsRefused.TheVariants.{OutOfMemory as MemoryOut};

    ghost from_gives = { λ _ e. e ≡ MemoryOut };

    fn from(_e: OutOfMemory) -> EditsRefused {
        EditsRefused::OutOfMemory
    }
}
