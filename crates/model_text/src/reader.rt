//! The reader of models.
ghost use Rattle.std.specs.Prelude.{◌≡◌, ◌≤◌, ◌<◌, ◌^◌, [], ◌++◌, ℕ, List, length, OnOk, IfOk, IfErr};
ghost use Rattle.lk_model.specs.declared.verdict.ReadStop.{ReadStop as StopOf};
ghost use Rattle.model_text.specs.ModelTexts.{IsModelRead, IsModelStop};
ghost use Rattle.model_text.specs.Fed.{HasBeenFed, IsSettledAs};
ghost use Rattle.model_text.specs.declared.progress.Held.TheVariants.{Stopped};

use crate::progress::{Held, nothing_read, take_all, values_of};
use lk_model::{OutOfMemory, ReadStop};
use partial_assign::Partial;
use std::alloc::Global;
use std::marker::Model;

/// Reads a model whose text comes in pieces. It keeps the values that the lines so far gave, and of the text
/// no more than the line that has not ended. Contracts see what it holds; which bytes it was fed is said by
/// `HasBeenFed`. How the bytes are cut into pieces makes no difference.
#[derive(Drop)]
pub struct ModelReader {
    held: Held,
}

impl Model for ModelReader {
    ghost use Rattle.model_text.specs.declared.progress.Held.{Held};
    ghost use Rattle.model_text.specs.Fed.{IsSoundHeld};

    ghost Value = { Held };

    ghost view = { λ r. r.held };

    ghost invariant = { λ r. IsSoundHeld r.held };
}

impl ModelReader {
    /// A reader of models of the variables from 1 to n that has been fed no byte.
    pub fn new(alloc: Global, n: u32) -> Result<ModelReader, OutOfMemory>
        requires { n ≤ 1000000 }
        ensures { IfOk result (HasBeenFed n []) }
    {
        Ok(ModelReader {
            held: Held::Going(nothing_read(alloc, n)?),
        })
    }

    /// Takes the next piece of the text. The text is refused as soon as a line has ended with which it is no
    /// model text, with the number of this line, counted from 1, whatever stands after it. The other error says
    /// that memory ran out; with it a text of 2^63 bytes is refused too. After a refusal the reader holds nothing
    /// but the refusal, which each later call returns.
    pub fn feed(&mut self, piece: &[u8]) -> Result<(), ReadStop>
        ensures fed { (n : ℕ) (fed : List ℕ) → HasBeenFed n fed self.old →
            OnOk result (HasBeenFed n (fed ++ piece.now) self.new) }
        ensures stop { (n : ℕ) (fed : List ℕ) → HasBeenFed n fed self.old →
            IfErr result (IsSettledAs n (fed ++ piece.now)) }
        ensures limit { (n : ℕ) (fed : List ℕ) → HasBeenFed n fed self.old →
            OnOk result (length (fed ++ piece.now) < 2 ^ 63) }
        ensures err { IfErr result (λ stop. self.new ≡ Stopped stop) }
        ensures same { (stop : StopOf) → self.old ≡ Stopped stop → result ≡ Err stop }
    {
        match &mut self.held {
            Held::Stopped(stop) => Err(*stop),
            Held::Going(progress) => {
                let taken = take_all(progress, piece);
                if let Err(stop) = taken {
                    self.held = Held::Stopped(stop);
                }
                taken
            }
        }
    }

    /// The values that the text gives that ends here. Its last line may lack its byte 10. Other bytes are
    /// refused with the first line with which they are no model text, counted from 1. The other error says
    /// that memory ran out. A reader that has refused returns that refusal again.
    pub fn finish(self) -> Result<Partial, ReadStop>
        ensures model { (n : ℕ) (fed : List ℕ) → HasBeenFed n fed self → IfOk result (IsModelRead fed n) }
        ensures stop { (n : ℕ) (fed : List ℕ) → HasBeenFed n fed self → IfErr result (IsModelStop fed n) }
        ensures same { (stop : StopOf) → self ≡ Stopped stop → result ≡ Err stop }
    {
        match self.held {
            Held::Stopped(stop) => Err(stop),
            Held::Going(progress) => values_of(progress),
        }
    }
}

/// The values of the variables from 1 to n that a model text gives: `s SATISFIABLE`, and literals in
/// lines after `v` up to a 0, which may be missing. A literal may stand again, but not beside its
/// complement. Other bytes are refused with the first line with which they are no model text, counted
/// from 1. The other error says that memory ran out.
pub fn read_model(alloc: Global, bytes: &[u8], n: u32) -> Result<Partial, ReadStop>
    requires { n ≤ 1000000 }
    ensures model { IfOk result (IsModelRead bytes.now n) }
    ensures stop { IfErr result (IsModelStop bytes.now n) }
{
    let mut reader = ModelReader::new(alloc, n)?;
    reader.feed(bytes)?;
    reader.finish()
}
