//! Tables over literals.
ghost use Rattle.std.specs.Prelude.{◌≡◌, ◌+◌, ◌*◌, ◌<◌, ◌≤◌, length, replicate, slice_index_or, All, IfOk};
ghost use Rattle.std.specs.Borrow.{sem};
ghost use Rattle.lk_model.specs.Limits.{max_vars};
ghost use Rattle.lk_model.specs.Formulas.Literal.{rank_of};

use crate::list::OutOfMemory;
use crate::lit::Lit;
use std::alloc::Global;
use std::marker::Model;
use std::ops::{Index, IndexMut};

/// An entry for each literal over the variables from 1 to n, read and written as `table[l]`. Contracts see
/// the list of the entries, in which that of a literal stands at its rank.
#[derive(Drop)]
pub struct LitTable<T> {
    entries: Vec<T>,
}

impl<T> Model for LitTable<T> {
    ghost use Rattle.std.specs.Prelude.{List};

    ghost Value = { List T };

    ghost view = { λ t. t.entries.items };
}

impl<T> LitTable<T> {
    /// The table over the variables from 1 to n with the same entry for each literal.
    pub fn new(alloc: Global, vars: u32, entry: T) -> Result<LitTable<T>, OutOfMemory>
    where
        T: Copy,
        requires { vars ≤ max_vars }
        ensures { IfOk result (λ t. t ≡ replicate (2 * vars + 2) entry) }
    {
        let mut entries = Vec::new(alloc);
        entries.resize(2 * vars as usize + 2, entry)?;
        Ok(LitTable { entries })
    }

    /// The table over the variables from 1 to n whose entries are made by one call each.
    pub fn new_with<F: Fn() -> T + Drop>(
        alloc: Global,
        vars: u32,
        make: F,
    ) -> Result<LitTable<T>, OutOfMemory>
    where
        T: Drop,
        requires callable { F.IsAlwaysCallable make }
        requires small { vars ≤ max_vars }
        ensures size { IfOk result (λ t. length t ≡ 2 * vars + 2) }
        ensures made { IfOk result (λ t. All (F.post make) t) }
    {
        let ranks = 2 * vars as usize + 2;
        let mut entries = Vec::with_capacity(alloc, ranks)?;
        for _ in 0..ranks {
            entries.push(make())?;
        }
        Ok(LitTable { entries })
    }

    /// The table whose entries stand at the ranks in a vector. It takes no memory.
    pub fn from_vec(entries: Vec<T>) -> LitTable<T>
        ensures { result ≡ entries.items }
    {
        LitTable { entries }
    }

    /// The entries, at the ranks.
    pub fn as_slice(&self) -> &[T]
        ensures { result.now ≡ self.now }
    {
        self.entries.as_slice()
    }
}

impl<T> Index<Lit> for LitTable<T> {
    type Output = T;

    ghost can_index = { λ t l. rank_of l < length t };

    ghost index_gives = { λ t l x. x ≡ slice_index_or t (rank_of l) x };

    fn index(&self, l: Lit) -> &T
        requires { rank_of l < length self.now }
        ensures { result.now ≡ slice_index_or self.now (rank_of l) result.now }
    {
        &self.entries[l.rank()]
    }
}

impl<T> IndexMut<Lit> for LitTable<T> {
    ghost use Rattle.lk_model.specs.Held.LiteralTables.{LendsEntry};

    fn index_mut(&mut self, l: Lit) -> &mut T
        requires { rank_of l < length self.old }
        ensures* writes_back { sem 𝓛 (LendsEntry T.row self.entry l result) }
        ensures value { result.now ≡ slice_index_or self.old (rank_of l) result.now }
    {
        &mut self.entries[l.rank()]
    }
}
