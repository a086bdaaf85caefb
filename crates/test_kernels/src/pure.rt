//! Pure kernels.
use lk_model::{Formula, OutOfMemory, PureResult};
use lk_samples::{drawn_formula, put_literals};
use pure_strip::pure_kernel;
use std::alloc::{AllocError, Global};
use std::test::Fail;

/// Writes a kernel, or its order alone and how many clauses it keeps.
fn put_kernel(k: &PureResult, is_whole: bool, out: &mut String) -> Result<(), AllocError> {
    let (kept, pairs) = (k.kept.as_slice(), k.pairs.as_slice());
    out.push_str("= order")?;
    put_literals(k.order.as_slice(), out)?;
    if is_whole {
        writeln!(out, "; kept {kept:?}; pairs {pairs:?}")
    } else {
        writeln!(out, "; kept {}", kept.len())
    }
}

/// Writes what is found of a formula.
pub(crate) fn tell_pure(
    alloc: Global,
    f: &Formula,
    is_whole: bool,
    out: &mut String,
) -> Result<(), OutOfMemory> {
    let k = pure_kernel(alloc, f)?;
    Ok(put_kernel(&k, is_whole, out)?)
}

/// Writes what is found of `count` drawn formulas.
pub(crate) fn tell_drawn(alloc: Global, count: u32, out: &mut String) -> Result<(), Fail> {
    for seed in 0..count {
        let f = drawn_formula(alloc, 6, seed, seed % 16)?;
        tell_pure(alloc, &f, true, out)?;
    }
    Ok(())
}
