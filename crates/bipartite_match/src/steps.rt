//! Steps that are counted for contracts alone.
ghost use Rattle.std.specs.Prelude.{◌≡◌, ◌+◌};

use std::marker::Model;
use std::mem;
use std::snapshot::Snapshot;

// A number: none, or one more than another, of which only a snapshot is kept.
#[derive(Drop)]
enum Count {
    Zero,
    OneMore(Snapshot<Count>),
}

/// A counter. Contracts see how many steps were counted; the number takes no bytes at run time. It keeps a ledger,
/// whose type tells one counter from another: who has no value of that type can make no second counter of it.
pub struct Steps<L> {
    ledger: L,
    taken: Snapshot<Count>,
}

impl<L> Model for Steps<L> {
    ghost use Rattle.std.specs.Prelude.{ℕ};
    ghost use Rattle.std.specs.Coded.{coded_ℕ};
    ghost use Rattle.bipartite_match.specs.Counts.{number};

    ghost Value = { ℕ };

    ghost coded = { coded_ℕ };

    ghost view = { λ s. number s.taken.value };
}

impl<L: Drop> Drop for Steps<L> {
    fn drop(self) {
        let Self { ledger, taken } = self;
        drop(ledger);
        drop(taken);
    }
}

impl<L> Steps<L> {
    /// The counter of a ledger, at 0. It takes no memory.
    pub fn new(ledger: L) -> Steps<L>
        ensures { result ≡ 0 }
    {
        Steps {
            ledger,
            taken: Snapshot::of(&Count::Zero),
        }
    }

    /// Counts one step.
    pub fn tick(&mut self)
        ensures { self.new ≡ self.old + 1 }
    {
        let before = mem::replace(&mut self.taken, Snapshot::of(&Count::Zero));
        self.taken = Snapshot::of(&Count::OneMore(before));
    }
}
