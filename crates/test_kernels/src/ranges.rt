//! Whether numbers are in range.
ghost use Rattle.std.specs.Prelude.{IsTrue};
ghost use Rattle.lk_model.specs.Limits.{is_in_range};
ghost use Rattle.exact_rows.specs.Made.{AreInRange};

/// Whether a number is in range.
pub(crate) fn is_in_range(x: i128) -> bool
    ensures { IsTrue result → IsTrue (is_in_range x) }
{
    x != i128::MIN
}

/// Whether all numbers are.
pub(crate) fn are_in_range(row: &[i128]) -> bool
    ensures { IsTrue result → AreInRange row.now }
{
    match row.split_first() {
        Some((x, others)) => is_in_range(*x) && are_in_range(others),
        None => true,
    }
}
