//! Flags of places.
ghost use Rattle.std.specs.Prelude.{◌≡◌, ◌≤◌, ℕ, IfOk, IsTrue};
ghost use Rattle.lk_model.specs.Lists.{among, rises_within};
ghost use Rattle.mus_core.specs.Flags.{flag_at};

use lk_model::OutOfMemory;
use std::alloc::Global;

/// Flags of these places up to m.
pub(crate) fn flags_of(alloc: Global, m: u32, places: &[u32]) -> Result<Vec<bool>, OutOfMemory>
    requires few { m ≤ 4_000_000 }
    requires places { IsTrue (rises_within 0 m places.now) }
    ensures { IfOk result (λ flags. (k : ℕ) → flag_at flags.items k ≡ among places.now k) }
{
    let mut flags = vec![in alloc; false; m as usize + 1]?;
    for place in places {
        flags[*place as usize] = true;
    }
    Ok(flags)
}

/// Whether the flag of a number is set.
pub(crate) fn flag_at(flags: &[bool], k: u32) -> bool
    ensures { result ≡ flag_at flags.now k }
{
    match flags.get(k as usize) {
        Some(flag) => *flag,
        None => false,
    }
}
