//! Formulas that are built by a rule.
use lk_model::Formula;
use lk_samples::append;
use std::alloc::Global;
use std::test::Fail;

/// Whether a word names such a formula.
pub(crate) fn is_shape(word: &str) -> bool {
    matches!(
        word,
        "units"
            | "chain"
            | "one"
            | "fours"
            | "pairs"
            | "squares"
            | "two"
            | "beside"
            | "matching-end"
    )
}

/// The variable of a number from 1 to n, where n + 1 is a prime: 37 times the number, less a multiple of the prime.
fn scattered(n: i32, k: i32) -> i32 {
    k.wrapping_mul(37) % n.wrapping_add(1).max(1)
}

/// The literal on a variable, positive or not.
fn signed(v: i32, positive: bool) -> i32 {
    if positive { v } else { v.wrapping_neg() }
}

/// Of an odd variable, the number of whose pair is given, one unit clause, and of the next one others in turn.
fn unit_of(pair: i32, turn: i32) -> (i32, i32) {
    let odd = pair.wrapping_mul(2).wrapping_add(1);
    match turn {
        0 => (odd, 0),
        _ => (signed(odd.wrapping_add(1), turn % 2 == 1), 0),
    }
}

/// How many clauses there are over n variables.
fn count(shape: &str, n: i32) -> i32 {
    match shape {
        "units" => n,
        "chain" | "one" => n.wrapping_sub(1).wrapping_mul(4),
        "fours" => (n / 2).wrapping_mul(5).wrapping_add(n % 2),
        "pairs" => (n / 2).wrapping_mul(3).wrapping_add(n % 2),
        "squares" => (n / 2).wrapping_mul(4),
        "two" => n.wrapping_sub(2).wrapping_mul(4),
        "beside" => (n / 2).wrapping_mul(5).wrapping_sub(4),
        _ => n.wrapping_add(4),
    }
}

/// A variable and the one `step` after it, in turn for each variable for which there is one.
fn linked(n: i32, i: i32, step: i32) -> (i32, i32) {
    let v = (i % n.wrapping_sub(step).max(1)).wrapping_add(1);
    (v, v.wrapping_add(step))
}

/// The literals of a clause, which are numbered from 0 on. The second one is 0 in a unit clause.
///
/// - `units`: each variable;
/// - `chain` and `one`: each two neighbouring variables, four times;
/// - `fours` and `pairs`: of an odd variable one unit clause, of an even one four or two, in turn positive and negative;
/// - `squares`: for each two numbers the four clauses over their scattered variables, those of all numbers in turn;
/// - `two`: each variable and the next but one, four times;
/// - `beside`: each variable of the second half, and then each two neighbouring ones of the first half, four times;
/// - else each variable, and the four clauses over the last two.
fn clause_of(shape: &str, n: i32, i: i32) -> (i32, i32) {
    match shape {
        "chain" | "one" => linked(n, i, 1),
        "two" => linked(n, i, 2),
        "beside" if i >= n / 2 => linked(n / 2, i.wrapping_sub(n / 2), 1),
        "beside" => ((n / 2).wrapping_add(i).wrapping_add(1), 0),
        "fours" => unit_of(i / 5, i % 5),
        "pairs" => unit_of(i / 3, i % 3),
        "squares" => {
            let half = (n / 2).max(1);
            let (signs, k) = (i / half, (i % half).wrapping_mul(2));
            let (a, b) = (
                scattered(n, k.wrapping_add(1)),
                scattered(n, k.wrapping_add(2)),
            );
            (signed(a, signs < 2), signed(b, signs % 2 == 0))
        }
        "matching-end" if i >= n => {
            let turn = i.wrapping_sub(n);
            (
                signed(n.wrapping_sub(1), turn >= 2),
                signed(n, turn % 2 == 0),
            )
        }
        _ => (i.wrapping_add(1), 0),
    }
}

/// The formula of a shape over n variables.
pub(crate) fn built(alloc: Global, shape: &str, n: u32) -> Result<Formula, Fail> {
    let mut f = Formula::new(alloc, n)?;
    let n = n.min(1_000_000) as i32;
    for i in 0..count(shape, n) {
        let (a, b) = clause_of(shape, n, i);
        if b == 0 {
            append(alloc, &mut f, &[a])?;
        } else {
            append(alloc, &mut f, &[a, b])?;
        }
    }
    Ok(f)
}
