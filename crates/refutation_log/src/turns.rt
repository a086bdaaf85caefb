//! The turns of a logged chain.
//!
//! A turn of a document names a clause by 64 bits. Nearly all numbers fit 32 bits, and then a log holds a turn in half
//! the room. A chain that names a greater number has all its turns as a document has them.
ghost use Rattle.std.specs.Prelude.{◌≡◌, ◌<◌, ◌^◌, length, slice_index_or, IfOk, IsTrue};
ghost use Rattle.std.specs.List.{list_all};
ghost use Rattle.refutation_log.specs.ShortTurns.{is_short};

use lk_model::{List, Lit, OutOfMemory, Turn};
use std::alloc::Global;
use std::marker::Model;

/// A turn whose number fits 32 bits. Contracts see the turn.
#[derive(Clone, Copy)]
struct ShortTurn {
    lit: Lit,
    with: u32,
}

impl Model for ShortTurn {
    ghost use Rattle.lk_model.specs.declared.document.Turn.{Turn};

    ghost Value = { Turn };

    ghost view = { λ t. record { lit = t.lit; with = t.with } };

    ghost inverse = { λ t. record { lit = t.lit; with = t.with } };
}

impl ShortTurn {
    // The short form of a turn whose number fits.
    fn of(turn: Turn) -> ShortTurn
        requires { turn.with < 2 ^ 32 }
        ensures { result ≡ turn }
    {
        ShortTurn {
            lit: turn.lit,
            with: turn.with as u32,
        }
    }

    // The turn.
    fn turn(self) -> Turn
        ensures { result ≡ self }
    {
        Turn {
            lit: self.lit,
            with: u64::from(self.with),
        }
    }
}

/// Turns of which each number fits 32 bits, or any.
#[derive(Drop)]
enum Held {
    Short(List<ShortTurn>),
    Long(List<Turn>),
}

/// The turns of a chain. Contracts see the list of them.
#[derive(Drop)]
pub(crate) struct Turns {
    held: Held,
}

impl Model for Turns {
    ghost use Rattle.std.specs.Prelude.{List};
    ghost use Rattle.lk_model.specs.declared.document.Turn.{Turn};

    ghost Value = { List Turn };

    ghost use Rattle.refutation_log.specs.ShortTurns.{held_turns};

    ghost view = { λ t. held_turns t.held };
}

impl Turns {
    /// These turns, short where all of them fit.
    pub fn of(alloc: Global, turns: &[Turn]) -> Result<Turns, OutOfMemory>
        ensures { IfOk result (λ t. t ≡ turns.now) }
    {
        let held = if are_short(turns) {
            Held::Short(shortened(alloc, turns)?)
        } else {
            Held::Long(List::from_vec(Vec::from_slice(alloc, turns)?))
        };
        Ok(Turns { held })
    }

    /// How many turns there are.
    pub fn len(&self) -> usize
        ensures { result ≡ length self.now }
    {
        match &self.held {
            Held::Short(turns) => turns.len(),
            Held::Long(turns) => turns.len(),
        }
    }

    /// The turn at an index.
    pub fn get(&self, at: usize) -> Turn
        requires { at < length self.now }
        ensures { result ≡ slice_index_or self.now at result }
    {
        match &self.held {
            Held::Short(turns) => turns.as_slice()[at].turn(),
            Held::Long(turns) => turns.as_slice()[at],
        }
    }

    /// The list of the turns. Short ones take memory.
    pub fn into_list(self, alloc: Global) -> Result<List<Turn>, OutOfMemory>
        ensures { IfOk result (λ l. l ≡ self) }
    {
        match self.held {
            Held::Short(turns) => lengthened(alloc, turns.as_slice()),
            Held::Long(turns) => Ok(turns),
        }
    }
}

// Whether each number fits 32 bits.
fn are_short(turns: &[Turn]) -> bool
    ensures { result ≡ list_all is_short turns.now }
{
    turns.iter().all(|turn| turn.with <= u64::from(u32::MAX))
}

// The short forms of turns.
fn shortened(alloc: Global, turns: &[Turn]) -> Result<List<ShortTurn>, OutOfMemory>
    requires { IsTrue (list_all is_short turns.now) }
    ensures { IfOk result (λ l. l ≡ turns.now) }
{
    let mut short = Vec::with_capacity(alloc, turns.len())?;
    for turn in turns {
        short.push(ShortTurn::of(*turn))?;
    }
    Ok(List::from_vec(short))
}

// The turns of short forms.
fn lengthened(alloc: Global, turns: &[ShortTurn]) -> Result<List<Turn>, OutOfMemory>
    ensures { IfOk result (λ l. l ≡ turns.now) }
{
    let mut long = Vec::with_capacity(alloc, turns.len())?;
    for turn in turns {
        long.push(turn.turn())?;
    }
    Ok(List::from_vec(long))
}
