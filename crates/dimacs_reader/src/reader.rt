//! The reader of formulas.
ghost use Rattle.std.specs.Prelude.{◌≡◌, ◌≤◌, [], ◌++◌, ℕ, List, length, OnOk, IfOk, IfErr};
ghost use Rattle.lk_model.specs.Limits.{max_bytes};
ghost use Rattle.lk_model.specs.Texts.Dimacs.{Spells};
ghost use Rattle.dimacs_reader.specs.Faults.{IsRefusalOf, IsSettledAs, HasNoneDue};
ghost use Rattle.dimacs_reader.specs.Taken.{HasBeenFed};
ghost use Rattle.dimacs_reader.specs.declared.refusal.Refused.{Refused};
ghost use Rattle.dimacs_reader.specs.declared.reading.Held.TheVariants.{Stopped};

use crate::head::HeadLine;
use crate::reading::{Held, Reading, Stage, formula_of, take_all};
use crate::refusal::Refused;
use lk_model::Formula;
use std::alloc::Global;
use std::marker::Model;

/// Reads a formula whose text comes in pieces. It keeps the formula, the open clause, and of the text no
/// more than a few numbers on the line and the word that have not ended. Contracts see what it holds; which
/// bytes it was fed is said by `HasBeenFed`. How the bytes are cut into pieces makes no difference.
#[derive(Drop)]
pub struct Reader {
    held: Held,
}

impl Model for Reader {
    ghost use Rattle.dimacs_reader.specs.declared.reading.Held.{Held};
    ghost use Rattle.dimacs_reader.specs.Taken.{IsSoundHeld};

    ghost Value = { Held };

    ghost view = { λ r. r.held };

    ghost invariant = { λ r. IsSoundHeld r.held };
}

impl Reader {
    /// A reader that has been fed no byte.
    pub fn new(alloc: Global) -> Self
        ensures { HasBeenFed [] result }
    {
        Reader {
            held: Held::Going(Reading {
                alloc,
                bytes: 0,
                line: 1,
                stage: Stage::Head(HeadLine::Start),
            }),
        }
    }

    /// Takes the next piece of the text. It is refused only if the first fault is this one, with its line,
    /// however the bytes fed so far go on; or if memory runs out. It must be refused once a byte
    /// after a faulty word or problem line was fed, and for another fault once its own byte was fed: the
    /// first one of a line, an end mark, or byte number 2^30 + 1. After a refusal the reader holds nothing
    /// but the refusal, which each later call returns.
    pub fn feed(&mut self, piece: &[u8]) -> Result<(), Refused>
        ensures ok { (fed : List ℕ) → HasBeenFed fed self.old → OnOk result (HasBeenFed (fed ++ piece.now) self.new) }
        ensures fits { (fed : List ℕ) → HasBeenFed fed self.old → OnOk result (length (fed ++ piece.now) ≤ max_bytes) }
        ensures told { (fed : List ℕ) → HasBeenFed fed self.old → OnOk result (HasNoneDue (fed ++ piece.now)) }
        ensures cause { (fed : List ℕ) → HasBeenFed fed self.old → IfErr result (IsSettledAs (fed ++ piece.now)) }
        ensures err { IfErr result (λ r. self.new ≡ Stopped r) }
        ensures same { (r : Refused) → self.old ≡ Stopped r → result ≡ Err r }
    {
        match &mut self.held {
            Held::Stopped(refused) => Err(*refused),
            Held::Going(reading) => {
                let taken = take_all(reading, piece);
                if let Err(refused) = taken {
                    self.held = Held::Stopped(refused);
                }
                taken
            }
        }
    }

    /// The formula that the bytes spell. Unless memory runs out it is refused exactly if the bytes are
    /// no text of a formula, with their first fault; a reader that has refused returns that refusal again.
    pub fn finish(self) -> Result<Formula, Refused>
        ensures ok { (fed : List ℕ) → HasBeenFed fed self → IfOk result (Spells fed) }
        ensures cause { (fed : List ℕ) → HasBeenFed fed self → IfErr result (IsRefusalOf fed) }
        ensures same { (r : Refused) → self ≡ Stopped r → result ≡ Err r }
    {
        match self.held {
            Held::Stopped(refused) => Err(refused),
            Held::Going(reading) => formula_of(reading),
        }
    }
}
