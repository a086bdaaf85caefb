//! Drawn rows, combined by their entries and whole.
use crate::rows::{tell_entries, tell_whole};
use std::alloc::Global;
use std::test::Fail;

/// The greatest number in range.
const M: i128 = i128::MAX;

/// Numbers of a row: half of them 0, and the others about the bounds of 64 and of 128 bits, or small.
const NUMBERS: &[i128] = &[
    0,
    0,
    0,
    0,
    0,
    0,
    0,
    0,
    1,
    -1,
    2,
    -6,
    i64::MAX as i128,
    i64::MIN as i128,
    1 << 64,
    M / 2,
    M / 2 + 1,
    -M,
];

/// Factors with which rows are combined.
const FACTORS: &[i128] = &[1, 2, 3, 6, -4, -1, 1 << 63, M - 1];

/// Numbers drawn from a seed.
#[derive(Drop)]
struct Draw {
    seed: u64,
}

impl Draw {
    /// One of the numbers, by a linear congruence.
    fn one_of(&mut self, numbers: &[i128]) -> i128 {
        self.seed = self
            .seed
            .wrapping_mul(6364136223846793005)
            .wrapping_add(1442695040888963407);
        let drawn = (self.seed / 4294967296) as usize;
        if numbers.is_empty() {
            return 0;
        }
        numbers[drawn % numbers.len()]
    }

    /// A row of this many columns.
    fn row(&mut self, alloc: Global, columns: usize) -> Result<Vec<i128>, Fail> {
        let mut row = Vec::with_capacity(alloc, columns)?;
        for _ in 0..columns {
            row.push(self.one_of(NUMBERS))?;
        }
        Ok(row)
    }
}

/// Whether the next drawn rows combine by their entries as they do whole.
fn combines_as_whole(alloc: Global, draw: &mut Draw, columns: usize) -> Result<bool, Fail> {
    let mut row = draw.row(alloc, columns)?;
    let other = draw.row(alloc, columns)?;
    let factors = (draw.one_of(FACTORS), draw.one_of(FACTORS));
    let mut sparse = String::new(alloc);
    tell_entries(
        alloc,
        factors,
        row.as_slice(),
        other.as_slice(),
        &mut sparse,
    )?;
    let mut whole = String::new(alloc);
    tell_whole(factors, row.as_mut_slice(), other.as_slice(), &mut whole)?;
    Ok(sparse.as_str() == whole.as_str())
}

/// Writes in how many of `count` drawn combinations both are the same.
pub(crate) fn tell_drawn(alloc: Global, count: usize, out: &mut String) -> Result<(), Fail> {
    let mut draw = Draw { seed: 1 };
    let mut same = 0usize;
    for i in 0..count {
        if combines_as_whole(alloc, &mut draw, i % 12)? {
            same = same.saturating_add(1);
        }
    }
    writeln!(out, "= the same in {same} of {count}")?;
    Ok(())
}
