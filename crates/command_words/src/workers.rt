//! How many threads may work.
ghost use Rattle.std.specs.Prelude.{◌≡◌, ◌<◌, ◌≤◌, ◌↔◌, IsSome, IfSome};

use std::marker::Model;

/// How many threads may work at a time: from 1 to 64.
#[derive(Clone, Copy)]
pub struct Workers {
    count: u32,
}

impl Model for Workers {
    ghost use Rattle.std.specs.Prelude.{ℕ, ◌<◌, ◌≤◌};

    ghost Value = { ℕ };

    ghost view = { λ w. w.count };

    ghost invariant = { λ w. (0 < w.count) × (w.count ≤ 64) };

    ghost inverse = { λ n. record { count = n } };
}

impl Workers {
    /// `count` threads, if that many may work.
    pub fn new(count: u64) -> Option<Workers>
        ensures some { IsSome result ↔ ((0 < count) × (count ≤ 64)) }
        ensures value { IfSome result (λ w. w ≡ count) }
    {
        if count == 0 || count > 64 {
            None
        } else {
            Some(Workers {
                count: count as u32,
            })
        }
    }

    /// How many threads may work.
    pub fn get(self) -> u32
        ensures value { result ≡ self }
        ensures some { 0 < result }
        ensures few { result ≤ 64 }
    {
        self.count
    }
}
