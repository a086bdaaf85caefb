//! Numbers of which the least is at hand.
ghost use Rattle.std.specs.Prelude.{◌≡◌, ◌∷◌, [], ℕ, IfSome, IfNone, OnOk, OnErr, IsPermutation};
ghost use Rattle.pure_strip.specs.Counted.{IsLeast};

use lk_model::OutOfMemory;
use std::alloc::Global;
use std::cmp::Reverse;
use std::collections::BinaryHeap;
use std::marker::Model;

/// Numbers of which the least is at hand. Contracts see a list of them, in some order.
#[derive(Drop)]
pub(crate) struct LeastFirst {
    heap: BinaryHeap<Reverse<u32>>,
}

impl Model for LeastFirst {
    ghost use Rattle.std.specs.Prelude.{ℕ, List, map};
    ghost use Rattle.std.specs.Ordering.{nat_cmp};
    ghost use Rattle.std.specs.BinaryHeap.{IsHeap, heap_items};

    ghost Value = { List ℕ };

    ghost view = { λ q. map (λ r. r.0) (heap_items q.heap) };

    ghost invariant = { λ q. IsHeap (λ x y. nat_cmp y.0 x.0) (heap_items q.heap) };
}

impl LeastFirst {
    /// No numbers.
    pub fn new(alloc: Global) -> LeastFirst
        ensures { result ≡ [] }
    {
        LeastFirst {
            heap: BinaryHeap::new(alloc),
        }
    }

    /// One number more. Without memory nothing changes.
    pub fn push(&mut self, x: u32) -> Result<(), OutOfMemory>
        ensures ok { OnOk result (IsPermutation (x ∷ self.old) self.new) }
        ensures err { OnErr result (self.new ≡ self.old) }
    {
        self.heap.push(Reverse(x))?;
        Ok(())
    }

    /// The least number.
    pub fn least(&self) -> Option<u32>
        ensures some { IfSome result (IsLeast self.now) }
        ensures none { IfNone result (self.now ≡ []) }
    {
        match self.heap.peek() {
            Some(top) => Some(top.0),
            None => None,
        }
    }

    /// Drops the least number.
    pub fn drop_least(&mut self)
        ensures { (x : ℕ) → IsLeast self.old x → IsPermutation self.old (x ∷ self.new) }
    {
        self.heap.pop();
    }
}
