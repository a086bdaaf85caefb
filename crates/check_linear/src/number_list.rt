//! The numbers that clauses give a variable.
//!
//! A table of them is used for one unit after another. So numbers that are taken away leave their memory for the next
//! ones: otherwise memory would be taken and given back for each variable of each unit, which is most of the time where
//! units name long clauses.
ghost use Rattle.std.specs.Prelude.{◌≡◌, ◌++◌, ◌∷◌, [], OnOk};
ghost use Rattle.lk_model.specs.Lists.{is_nonzero, sum_of};

use exact_rows::sign_of_sum;
use lk_model::OutOfMemory;
use std::alloc::Global;
use std::cmp::Ordering;
use std::marker::Model;

/// Numbers in an order. Contracts see the list of them.
#[derive(Drop)]
pub(crate) struct Numbers {
    items: Vec<i128>,
}

impl Model for Numbers {
    ghost use Rattle.std.specs.Prelude.{List, ℤ};

    ghost Value = { List ℤ };

    ghost view = { λ n. n.items.items };
}

impl Numbers {
    /// No number. It takes no memory yet.
    pub fn new(alloc: Global) -> Numbers
        ensures { result ≡ [] }
    {
        Numbers {
            items: Vec::new(alloc),
        }
    }

    /// Appends a number.
    pub fn push(&mut self, y: i128) -> Result<(), OutOfMemory>
        ensures ok { OnOk result (self.new ≡ self.old ++ y ∷ []) }
    {
        self.items.push(y)?;
        Ok(())
    }

    /// Takes all numbers away. Their memory is kept for the next ones.
    pub fn clear(&mut self)
        ensures { self.new ≡ [] }
    {
        self.items.clear();
    }

    /// Whether their sum is not 0.
    pub fn has_sum(&self) -> bool
        ensures { result ≡ is_nonzero (sum_of self.now) }
    {
        sign_of_sum(&self.items) != Ordering::Equal
    }
}
