//! The reader of a text in pieces.
ghost use Rattle.std.specs.Prelude.{◌≡◌, ◌<◌, ◌^◌, [], ◌++◌, ℕ, List, length, OnOk, IfOk, IfErr};
ghost use Rattle.line_text.specs.LineReading.{CanComplete, IsReadBy, IsAdmitted, IsStopOf};
ghost use Rattle.lk_model.specs.declared.verdict.ReadStop.{ReadStop as StopOf};
ghost use Rattle.line_pieces.specs.Fed.{HasBeenFed, IsSettledAs};
ghost use Rattle.line_pieces.specs.declared.progress.Held.TheVariants.{Stopped};

use crate::progress::{Held, Progress, take_piece, value_of};
use line_text::LineReader;
use lk_model::ReadStop;
use std::alloc::Global;
use std::marker::Model;

/// Reads a text that comes in pieces by a reader of its lines. It keeps this reader, and of the text no more
/// than the line that has not ended. Contracts see what it holds; which bytes it was fed is said by
/// `HasBeenFed`. How the bytes are cut into pieces makes no difference.
#[derive(Drop)]
pub struct PieceReader<R: LineReader> {
    held: Held<R>,
}

impl<R: LineReader> Model for PieceReader<R> {
    ghost use Rattle.line_pieces.specs.declared.progress.Held.{Held};
    ghost use Rattle.line_pieces.specs.Fed.{IsSoundHeld};

    ghost Value = { Held R };

    ghost view = { λ r. r.held };

    ghost invariant = { λ r. IsSoundHeld R.fits R.count r.held };
}

impl<R: LineReader + Drop> PieceReader<R> {
    /// A reader that has been fed no byte, over one that has read no line. It takes no memory yet.
    pub fn new(alloc: Global, reader: R) -> PieceReader<R>
        requires fits { R.fits reader }
        requires first { R.count reader ≡ 0 }
        requires completed { CanComplete (R.completes reader) }
        ensures { HasBeenFed R.completes reader [] result }
    {
        PieceReader {
            held: Held::Going(Progress {
                reader,
                unended: Vec::new(alloc),
                lines: 0,
                bytes: 0,
            }),
        }
    }

    /// Takes the next piece of the text. The text is refused as soon as a line has ended with which none goes
    /// on, with the number of this line, counted from 1, whatever stands after it. The other error says that
    /// memory ran out; with it a text of 2^63 bytes is refused too. After a refusal the reader holds nothing but the
    /// refusal, which each later call returns.
    pub fn feed(&mut self, alloc: Global, piece: &[u8]) -> Result<(), ReadStop>
        ensures fed { (first : R) (fed : List ℕ) → HasBeenFed R.completes first fed self.old
            → OnOk result (HasBeenFed R.completes first (fed ++ piece.now) self.new) }
        ensures stop { (first : R) (fed : List ℕ) → HasBeenFed R.completes first fed self.old
            → IfErr result (IsSettledAs (IsAdmitted (R.completes first)) (fed ++ piece.now)) }
        ensures limit { (first : R) (fed : List ℕ) → HasBeenFed R.completes first fed self.old
            → OnOk result (length (fed ++ piece.now) < 2 ^ 63) }
        ensures err { IfErr result (λ stop. self.new ≡ Stopped stop) }
        ensures same { (stop : StopOf) → self.old ≡ Stopped stop → result ≡ Err stop }
    {
        match &mut self.held {
            Held::Stopped(stop) => Err(*stop),
            Held::Going(progress) => {
                let taken = take_piece(alloc, progress, piece);
                if let Err(stop) = taken {
                    self.held = Held::Stopped(stop);
                }
                taken
            }
        }
    }

    /// The value of the text that ends here. Other bytes are refused with the first line with which no text
    /// goes on, counted from 1. A last line without its byte 10 is such a line; if the text ends too early,
    /// so is the line after its last one. The other error says that memory ran out. A reader that has refused
    /// returns that refusal again.
    pub fn finish(self) -> Result<R::Value, ReadStop>
        ensures value { (first : R) (fed : List ℕ) → HasBeenFed R.completes first fed self
            → IfOk result (IsReadBy (R.completes first) fed) }
        ensures stop { (first : R) (fed : List ℕ) → HasBeenFed R.completes first fed self
            → IfErr result (IsStopOf (IsAdmitted (R.completes first)) fed) }
        ensures same { (stop : StopOf) → self ≡ Stopped stop → result ≡ Err stop }
    {
        match self.held {
            Held::Stopped(stop) => Err(stop),
            Held::Going(progress) => value_of(progress),
        }
    }
}
