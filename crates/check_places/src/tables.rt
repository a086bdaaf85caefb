//! Tables of positions and of variables.
ghost use Rattle.std.specs.Prelude.{◌≡◌, ◌-◌, slice_index};

/// The number of a position or variable, which counts from 1, in a table; 0 outside of it.
pub fn number_at(table: &[u32], k: u32) -> u32
    ensures { result ≡ slice_index table.now (k - 1) }
{
    match table.get((k as usize).saturating_sub(1)) {
        Some(number) => *number,
        None => 0,
    }
}
