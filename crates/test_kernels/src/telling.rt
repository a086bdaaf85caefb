//! The ends of linear runs as lines.
use linear_kernel::LinearStop;
use lk_model::{Dual, LinearResult, Op, Share, Stage, Unit, Weight, Wide};
use std::alloc::AllocError;

/// Writes weights after their variables.
fn put_weights(weights: &[Weight], out: &mut String) -> Result<(), AllocError> {
    for w in weights {
        write!(out, " {}:{}", w.var, w.x)?;
    }
    Ok(())
}

/// Writes a stage as a line.
pub(crate) fn put_stage(stage: &Stage, out: &mut String) -> Result<(), AllocError> {
    out.push_str("= stage")?;
    put_weights(stage.weights.as_slice(), out)?;
    out.push('\n')
}

fn put_stages(stages: &[Stage], out: &mut String) -> Result<(), AllocError> {
    for stage in stages {
        put_stage(stage, out)?;
    }
    Ok(())
}

/// Writes duals after their positions.
fn put_duals(duals: &[Dual], out: &mut String) -> Result<(), AllocError> {
    for dual in duals {
        write!(out, " {}:{}", dual.pos, dual.y)?;
    }
    Ok(())
}

/// Writes shares after their positions.
fn put_shares(shares: &[Share], out: &mut String) -> Result<(), AllocError> {
    for share in shares {
        write!(out, " {}:{}", share.pos, share.z)?;
    }
    Ok(())
}

fn put_unit(unit: &Unit, out: &mut String) -> Result<(), AllocError> {
    write!(out, "= unit {}:{} by", unit.var, unit.d)?;
    put_shares(unit.shares.as_slice(), out)?;
    out.push('\n')
}

/// Writes duals, and each unit as a line.
pub(crate) fn put_lean(duals: &[Dual], units: &[Unit], out: &mut String) -> Result<(), AllocError> {
    put_duals(duals, out)?;
    out.push('\n')?;
    for unit in units {
        put_unit(unit, out)?;
    }
    Ok(())
}

/// Writes a result.
fn put_result(r: &LinearResult, out: &mut String) -> Result<(), AllocError> {
    put_stages(r.stages.as_slice(), out)?;
    write!(out, "= kept {:?} with", r.kept.as_slice())?;
    put_lean(r.dual.as_slice(), r.units.as_slice(), out)
}

/// Writes how many weights a stage has, and the first two.
pub(crate) fn put_begun(stage: &Stage, out: &mut String) -> Result<(), AllocError> {
    let weights = stage.weights.as_slice();
    write!(out, " {} weights:", weights.len())?;
    put_weights(weights.get(..2).unwrap_or(weights), out)
}

/// Writes how many positions and stages a result has, and how its first stage begins.
fn put_counts(r: &LinearResult, out: &mut String) -> Result<(), AllocError> {
    write!(out, "= {} kept; {} stages", r.kept.len(), r.stages.len())?;
    if let Some(stage) = r.stages.as_slice().first() {
        out.push(';')?;
        put_begun(stage, out)?;
    }
    out.push('\n')
}

/// The word of an operation.
fn word(op: Op) -> &'static str {
    match op {
        Op::Product => "product",
        Op::Sum => "sum",
        Op::Difference => "difference",
    }
}

fn put_operands(wide: Wide, out: &mut String) -> Result<(), AllocError> {
    writeln!(out, "{} of {} and {}", word(wide.op), wide.left, wide.right)
}

/// Writes a result that is too wide.
pub(crate) fn put_wide(wide: Wide, out: &mut String) -> Result<(), AllocError> {
    out.push_str("= ")?;
    put_operands(wide, out)
}

/// Writes why a run stops.
fn put_stop(stop: LinearStop, out: &mut String) -> Result<(), AllocError> {
    match stop {
        LinearStop::TooLarge { vars, clauses } => {
            writeln!(out, "= too large: {vars} variables, {clauses} clauses")
        }
        LinearStop::TooWide { pivots, wide } => {
            write!(out, "= too wide after {pivots} pivots: ")?;
            put_operands(wide, out)
        }
        LinearStop::Budget { pivots } => writeln!(out, "= budget of {pivots} pivots used"),
        LinearStop::OutOfMemory => out.push_str("= out of memory\n"),
    }
}

/// Writes the end of a run, the whole, or without its numbers but the first two weights.
pub(crate) fn put_linear(
    end: Result<LinearResult, LinearStop>,
    is_whole: bool,
    out: &mut String,
) -> Result<(), AllocError> {
    match end {
        Ok(result) if is_whole => put_result(&result, out),
        Ok(result) => put_counts(&result, out),
        Err(stop) => put_stop(stop, out),
    }
}
