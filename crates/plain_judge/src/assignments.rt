//! Models, and a search through all assignments.
use lk_model::{Formula, Lit};

/// How many variables a formula may have whose assignments are gone through.
pub const MOST_VARS: u32 = 12;

/// Whether a literal is true by an assignment, whose bit v - 1 is the value of the variable v.
fn is_true(assignment: u32, l: Lit) -> bool {
    let mut rest = assignment;
    for _ in 1..l.var() {
        rest /= 2;
    }
    (rest % 2 == 1) == l.positive()
}

/// Whether an assignment satisfies each clause.
fn satisfies(f: &Formula, assignment: u32) -> bool {
    for p in 1..f.len() + 1 {
        if !f.clause(p).iter().any(|l| is_true(assignment, *l)) {
            return false;
        }
    }
    true
}

/// Whether an assignment satisfies each clause, for a formula of at most `MOST_VARS` variables.
pub fn has_model(f: &Formula) -> bool {
    for assignment in 0..1u32 << f.vars().min(MOST_VARS) {
        if satisfies(f, assignment) {
            return true;
        }
    }
    false
}

/// Whether the literals are on the variables from 1 to n, in this order, and each clause has one of them.
pub fn is_model(f: &Formula, lits: &[Lit]) -> bool {
    if !lits.iter().map(|l| l.var()).eq(1..f.vars() + 1) {
        return false;
    }
    for p in 1..f.len() + 1 {
        if !f.clause(p).iter().any(|l| lits.contains(l)) {
            return false;
        }
    }
    true
}
