//! Why a command ends without its result.
ghost use Rattle.std.specs.Prelude.{◌≡◌};
ghost use Rattle.command_stops.specs.declared.stop.Stop.TheVariants.{Memory as MemoryStop, Read as ReadStop};
ghost use Rattle.command_stops.specs.Stops.{stop_of, start_stop_of, read_stop_of, model_stop_of, answer_stop_of};
ghost use Rattle.command_stops.specs.Stops.{edits_stop_of};

use dimacs_reader::Refused;
use edit_text::{EditFault, EditsRefused};
use lk_model::{
    OutOfMemory, ReadStop as AnswerStop, ReadStop as DocumentStop, ReadStop as ModelStop,
};
use lk_outside::{Failed, StartStop};
use std::alloc::AllocError;

/// Why a command ends without its result.
#[derive(Clone, Copy)]
pub enum Stop {
    /// The words are not lawful; the number of the refused one, counted from 1.
    Words(usize),
    /// The text of the formula is refused.
    Formula(Refused),
    /// The text is of none of the documents that are read; the first line with which none of them goes on, counted from
    /// 1.
    Document(u64),
    /// The text is no model for the formula; its first faulty line, counted from 1.
    Model(u64),
    /// The text is no answer for the formula; the first line with which none of them goes on, counted from 1.
    Answer(u64),
    /// The text is none of edits of the formula; its first faulty line, counted from 1, and what is wrong with it.
    Edits { line: u64, fault: EditFault },
    /// A call on the shelf failed.
    Read,
    /// There was no memory.
    Memory,
}

impl From<Refused> for Stop {
    ghost from_gives = { λ r s. s ≡ stop_of r };

    fn from(refused: Refused) -> Stop {
        match refused {
            Refused::OutOfMemory => Stop::Memory,
            _ => Stop::Formula(refused),
        }
    }
}

impl From<DocumentStop> for Stop {
    ghost from_gives = { λ e s. s ≡ read_stop_of e };

    fn from(stop: DocumentStop) -> Stop {
        match stop {
            DocumentStop::Line(line) => Stop::Document(line),
            DocumentStop::OutOfMemory => Stop::Memory,
        }
    }
}

impl From<EditsRefused> for Stop {
    ghost from_gives = { λ r s. s ≡ edits_stop_of r };

    fn from(refused: EditsRefused) -> Stop {
        match refused {
            EditsRefused::Line { line, fault } => Stop::Edits { line, fault },
            EditsRefused::OutOfMemory => Stop::Memory,
        }
    }
}

impl From<Failed> for Stop {
    ghost from_gives = { λ _ s. s ≡ ReadStop };

    fn from(_e: Failed) -> Stop {
        Stop::Read
    }
}

impl From<StartStop> for Stop {
    ghost from_gives = { λ e s. s ≡ start_stop_of e };

    fn from(e: StartStop) -> Stop {
        match e {
            StartStop::Failed => Stop::Read,
            StartStop::OutOfMemory => Stop::Memory,
        }
    }
}

impl From<OutOfMemory> for Stop {
    ghost from_gives = { λ _ s. s ≡ MemoryStop };

    fn from(_e: OutOfMemory) -> Stop {
        Stop::Memory
    }
}

impl From<AllocError> for Stop {
    ghost from_gives = { λ _ s. s ≡ MemoryStop };

    fn from(_e: AllocError) -> Stop {
        Stop::Memory
    }
}

impl Stop {
    /// The stop that a text makes that is no model's.
    pub fn of_model(stop: ModelStop) -> Stop
        ensures { result ≡ model_stop_of stop }
    {
        match stop {
            ModelStop::Line(line) => Stop::Model(line),
            ModelStop::OutOfMemory => Stop::Memory,
        }
    }

    /// The stop that a text makes that is no answer's.
    pub fn of_answer(stop: AnswerStop) -> Stop
        ensures { result ≡ answer_stop_of stop }
    {
        match stop {
            AnswerStop::Line(line) => Stop::Answer(line),
            AnswerStop::OutOfMemory => Stop::Memory,
        }
    }
}
