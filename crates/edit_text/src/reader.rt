//! The reader of edits.
ghost use Rattle.std.specs.Prelude.{◌≡◌, ◌≤◌, [], ◌++◌, ℕ, List, length, OnOk, IfOk, IfErr};
ghost use Rattle.lk_model.specs.Limits.{max_bytes};
ghost use Rattle.lk_model.specs.Formulas.Formula.{Cnf};
ghost use Rattle.edit_text.specs.LiveClauses.{live_of};
ghost use Rattle.edit_text.specs.Edits.{CanBeMade};
ghost use Rattle.edit_text.specs.EditText.{IsEdits};
ghost use Rattle.edit_text.specs.Fed.{HasBeenFed, IsRefusalOf, IsSettledAs};
ghost use Rattle.edit_text.specs.declared.refusal.EditsRefused.{EditsRefused as RefusedOf};
ghost use Rattle.edit_text.specs.declared.progress.Held.TheVariants.{Stopped};

use crate::edit::Edit;
use crate::progress::{Held, edits_of, nothing_read, take_all};
use crate::refusal::EditsRefused;
use lk_model::{Formula, List, OutOfMemory};
use std::alloc::Global;
use std::marker::Model;

/// Reads edits of a formula's clauses whose text comes in pieces. It keeps what is live, the edits, and of
/// the text no more than the line that has not ended. After a line with a fault it only counts bytes and
/// lines. Contracts see what it holds; which bytes it was fed is said by `HasBeenFed`. How the bytes are cut
/// into pieces makes no difference.
#[derive(Drop)]
pub struct EditsReader {
    held: Held,
}

impl Model for EditsReader {
    ghost use Rattle.edit_text.specs.declared.progress.Held.{Held};
    ghost use Rattle.edit_text.specs.Fed.{IsSoundHeld};

    ghost Value = { Held };

    ghost view = { λ r. r.held };

    ghost invariant = { λ r. IsSoundHeld r.held };
}

impl EditsReader {
    /// A reader of edits of this formula that has been fed no byte.
    pub fn new(alloc: Global, f: &Formula) -> Result<EditsReader, OutOfMemory>
        ensures { IfOk result (HasBeenFed f.now []) }
    {
        Ok(EditsReader {
            held: Held::Going(nothing_read(alloc, f)?),
        })
    }

    /// Takes the next piece of the text. It is refused only if memory runs out, or with byte number 2^30 + 1,
    /// whatever stands before and after it: other faults are reported at the end. After a refusal the reader
    /// holds nothing but the refusal, which each later call returns.
    pub fn feed(&mut self, piece: &[u8]) -> Result<(), EditsRefused>
        ensures ok { (F : Cnf) (fed : List ℕ) → HasBeenFed F fed self.old →
            OnOk result (HasBeenFed F (fed ++ piece.now) self.new) }
        ensures fits { (F : Cnf) (fed : List ℕ) → HasBeenFed F fed self.old →
            OnOk result (length (fed ++ piece.now) ≤ max_bytes) }
        ensures cause { (F : Cnf) (fed : List ℕ) → HasBeenFed F fed self.old →
            IfErr result (IsSettledAs F (fed ++ piece.now)) }
        ensures err { IfErr result (λ r. self.new ≡ Stopped r) }
        ensures same { (r : RefusedOf) → self.old ≡ Stopped r → result ≡ Err r }
    {
        match &mut self.held {
            Held::Stopped(refused) => Err(*refused),
            Held::Going(progress) => {
                let taken = take_all(progress, piece);
                if let Err(refused) = taken {
                    self.held = Held::Stopped(refused);
                }
                taken
            }
        }
    }

    /// The edits that the bytes write: they can be made one after the other. Unless memory runs out it is
    /// refused exactly if the bytes are no text of edits of the formula, with the first line that has a
    /// fault; a reader that has refused returns that refusal again.
    pub fn finish(self) -> Result<List<Edit>, EditsRefused>
        ensures ok { (F : Cnf) (fed : List ℕ) → HasBeenFed F fed self → IfOk result (λ edits. IsEdits F edits fed) }
        ensures made { (F : Cnf) (fed : List ℕ) → HasBeenFed F fed self → IfOk result (CanBeMade (live_of F)) }
        ensures cause { (F : Cnf) (fed : List ℕ) → HasBeenFed F fed self → IfErr result (IsRefusalOf F fed) }
        ensures same { (r : RefusedOf) → self ≡ Stopped r → result ≡ Err r }
    {
        match self.held {
            Held::Stopped(refused) => Err(refused),
            Held::Going(progress) => edits_of(progress),
        }
    }
}
