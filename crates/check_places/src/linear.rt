//! What is asked of a place for a linear document.
ghost use Rattle.std.specs.Prelude.{◌≡◌, ◌≤◌, ◌<◌, length, if◌then◌else◌, not, int_lt, pos};
ghost use Rattle.check_places.specs.Places.{is_bad_dual};

/// Whether the dual of a position is missing, not wanted or below 1.
pub fn is_bad_dual(kept: &[bool], table: &[Option<bool>], p: u32) -> bool
    requires first { 0 < p }
    requires kept { p ≤ length kept.now }
    requires table { p ≤ length table.now }
    ensures { result ≡ is_bad_dual kept.now table.now p }
{
    match table[p as usize - 1] {
        Some(above) => !kept[p as usize - 1] || !above,
        None => kept[p as usize - 1],
    }
}

/// Whether the number of a dual is at least 1.
pub fn is_positive(y: i128) -> bool
    ensures { result ≡ not (int_lt y (pos 1)) }
{
    y >= 1
}

/// Whether a line is missing where one is wanted, or stands where none is.
pub fn is_amiss(wanted: bool, stands: bool) -> bool
    ensures { result ≡ (if stands then not wanted else wanted) }
{
    wanted != stands
}
