//! What is found, as lines.
use lk_model::{
    Decided, General, GeneralResult, Lit, MatchRow, MatchingResult, MusResult, Own, Round, Step,
};
use lk_samples::{put_literals, put_rounds, put_steps};
use part_formula::Decision;
use std::alloc::AllocError;

/// Writes the kept positions of a matching kernel.
pub(crate) fn put_kept(found: MatchingResult, out: &mut String) -> Result<(), AllocError> {
    write!(out, "= {:?}", found.kept.as_slice())
}

/// Writes a matching kernel: the kept positions, the own lines and the rows.
pub(crate) fn put_matching(found: MatchingResult, out: &mut String) -> Result<(), AllocError> {
    put_matching_lines(
        found.kept.as_slice(),
        found.own.as_slice(),
        found.rows.as_slice(),
        out,
    )
}

fn put_matching_lines(
    kept: &[u32],
    own: &[Own],
    rows: &[MatchRow],
    out: &mut String,
) -> Result<(), AllocError> {
    write!(out, "= kept {kept:?} own")?;
    put_own(own, out)?;
    out.push_str(" rows")?;
    for row in rows {
        write!(out, " {}:{}:{}:{}", row.var, row.own, row.escape, row.rank)?;
    }
    out.push('\n')
}

/// Writes own lines.
pub(crate) fn put_own(own: &[Own], out: &mut String) -> Result<(), AllocError> {
    for line in own {
        write!(out, " {}:{}", line.pos, line.var)?;
    }
    Ok(())
}

/// Writes a general kernel: the kept positions and the literals that are set, or that it is unfinished, and the rounds.
pub(crate) fn put_general(found: General, out: &mut String) -> Result<(), AllocError> {
    match found {
        General::Done(r) => put_done(&r, out),
        General::Unfinished(rounds) => put_open(rounds.as_slice(), out),
    }
}

fn put_done(r: &GeneralResult, out: &mut String) -> Result<(), AllocError> {
    write!(out, "= kept {:?} set", r.kept.as_slice())?;
    put_literals(r.set.as_slice(), out)?;
    out.push('\n')?;
    put_rounds(r.rounds.as_slice(), out)
}

fn put_open(rounds: &[Round], out: &mut String) -> Result<(), AllocError> {
    out.push_str("= unfinished\n")?;
    put_rounds(rounds, out)
}

/// Writes how many positions a general kernel keeps, and how many rounds and steps there are; or that it is unfinished.
pub(crate) fn put_sizes(found: General, out: &mut String) -> Result<(), AllocError> {
    match found {
        General::Done(r) => put_counts(r.kept.len(), r.rounds.as_slice(), out),
        General::Unfinished(rounds) => put_open(rounds.as_slice(), out),
    }
}

fn put_counts(kept: usize, rounds: &[Round], out: &mut String) -> Result<(), AllocError> {
    let mut steps = 0usize;
    for round in rounds {
        steps = steps.wrapping_add(round.steps.len());
    }
    writeln!(out, "= {kept} kept, {} rounds, {steps} steps", rounds.len())
}

/// Writes an answer: the literals of a model, or the steps of a round.
pub(crate) fn put_solved(solved: Decision, out: &mut String) -> Result<(), AllocError> {
    match solved {
        Decided::Model(lits) => put_model(lits.as_slice(), out),
        Decided::Refuted(round) => put_named("= refuted\n", round.steps.as_slice(), out),
        Decided::Stopped(round) => put_named("= unfinished\n", round.steps.as_slice(), out),
    }
}

/// Writes the literals of a model.
pub(crate) fn put_model(lits: &[Lit], out: &mut String) -> Result<(), AllocError> {
    out.push_str("= model")?;
    put_literals(lits, out)?;
    out.push('\n')
}

/// Writes steps after a head.
fn put_named(head: &str, steps: &[Step], out: &mut String) -> Result<(), AllocError> {
    out.push_str(head)?;
    put_steps(steps, out)
}

/// Writes positions.
pub(crate) fn put_positions(positions: &[u32], out: &mut String) -> Result<(), AllocError> {
    for p in positions {
        write!(out, " {p}")?;
    }
    Ok(())
}

/// Writes a core in the way of a command: all of it, without the steps, by its positions, their number or neither.
pub(crate) fn put_core(way: &str, r: &MusResult, out: &mut String) -> Result<(), AllocError> {
    out.push_str("= core")?;
    match way {
        "kind" => return Ok(()),
        "size" => return write!(out, " of {}", r.core.len()),
        _ => put_positions(r.core.as_slice(), out)?,
    }
    if way == "core" {
        return Ok(());
    }
    out.push('\n')?;
    if way == "find" {
        put_steps(r.round.steps.as_slice(), out)?;
    }
    for without in r.without.as_slice() {
        write!(out, "= without {}:", without.pos)?;
        put_literals(without.lits.as_slice(), out)?;
        out.push('\n')?;
    }
    Ok(())
}
