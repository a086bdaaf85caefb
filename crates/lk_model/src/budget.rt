//! How much a search may learn.
ghost use Rattle.std.specs.Prelude.{◌≡◌, ◌<◌, ◌^◌, ◌↔◌, IsSome, IfSome};

use std::marker::Model;

/// How many clauses a search by clause learning may learn: from 1 to 2^63 - 1.
#[derive(Clone, Copy)]
pub struct Budget {
    conflicts: u64,
}

impl Model for Budget {
    ghost use Rattle.std.specs.Prelude.{ℕ, ◌<◌, ◌^◌};

    ghost Value = { ℕ };

    ghost view = { λ b. b.conflicts };

    ghost invariant = { λ b. (0 < b.conflicts) × (b.conflicts < 2 ^ 63) };

    ghost inverse = { λ n. record { conflicts = n } };
}

impl Budget {
    /// The budget of `conflicts` learned clauses, if that number can be one.
    pub fn new(conflicts: u64) -> Option<Budget>
        ensures some { IsSome result ↔ ((0 < conflicts) × (conflicts < 2 ^ 63)) }
        ensures value { IfSome result (λ b. b ≡ conflicts) }
    {
        if conflicts == 0 || conflicts >= 1 << 63 {
            None
        } else {
            Some(Budget { conflicts })
        }
    }

    /// How many clauses may be learned.
    pub fn get(self) -> u64
        ensures value { result ≡ self }
        ensures some { 0 < result }
        ensures most { result < 2 ^ 63 }
    {
        self.conflicts
    }
}
