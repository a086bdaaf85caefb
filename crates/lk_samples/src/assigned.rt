//! Partial assignments from texts.
ghost use Rattle.std.specs.Prelude.{◌≡◌, length, IfOk};

use crate::written::literals_of_text;
use lk_model::Lit;
use partial_assign::Partial;
use std::alloc::Global;
use std::test::Fail;

/// How many variables an assignment of a text may have.
const MOST_VARS: u32 = 1_000_000;

/// Makes literals on unset variables from 1 to n true: whether they are such.
fn sets(assignment: &mut Partial, n: u32, lits: &[Lit]) -> bool
    requires { length assignment.old ≡ n }
    ensures { length assignment.new ≡ n }
{
    for l in lits {
        if l.var() > n || assignment.value(l.var()).is_some() {
            return false;
        }
        assignment.put(*l);
    }
    true
}

/// The assignment of the variables from 1 to n that makes the literals of a text true, and no more.
pub fn assignment_of_text(alloc: Global, n: u32, text: &str) -> Result<Partial, Fail>
    ensures { IfOk result (λ p. length p ≡ n) }
{
    let lits = literals_of_text(alloc, text)?;
    if n > MOST_VARS {
        return Err(Fail::from("too many variables"));
    }
    let mut assignment = Partial::new(alloc, n)?;
    if !sets(&mut assignment, n, lits.as_slice()) {
        return Err(Fail::from("not unset"));
    }
    Ok(assignment)
}
