//! Clauses that are drawn from the words of a generator.
ghost use Rattle.std.specs.Prelude.{◌≡◌, ◌+◌, ◌≤◌, length, OnOk, IfOk, IsTrue};
ghost use Rattle.lk_model.specs.Formulas.Literal.{is_clause, is_literal, mentions};
ghost use Rattle.demo_formula.specs.Demo.{rest, with_literal, drawn_variable, drawn_literal, drawn_clause};
ghost use Rattle.demo_formula.specs.Demo.{after_clause};

use lk_model::{Lit, OutOfMemory};
use rand_core::utils::NextWord;
use rand_pcg::Lcg64Xsh32;
use std::alloc::Global;

/// A clause by the next five words.
pub(crate) fn draw_clause(alloc: Global, words: &mut Lcg64Xsh32) -> Result<Vec<Lit>, OutOfMemory>
    ensures value { IfOk result (λ clause. clause.items ≡ drawn_clause words.old) }
    ensures clause { IfOk result (λ clause. IsTrue (is_clause 2200 clause.items)) }
    ensures short { IfOk result (λ clause. length clause.items ≤ 3) }
    ensures next { OnOk result (words.new ≡ after_clause words.old) }
{
    let mut clause = Vec::from_slice(alloc, &[draw_variable(words)])?;
    add(&mut clause, draw_literal(words))?;
    add(&mut clause, draw_literal(words))?;
    Ok(clause)
}

/// Adds a literal to a clause, unless that has a literal of its variable.
fn add(clause: &mut Vec<Lit>, l: Lit) -> Result<(), OutOfMemory>
    requires clause { IsTrue (is_clause 2200 clause.old.items) }
    requires literal { IsTrue (is_literal 2200 l) }
    ensures value { OnOk result (clause.new.items ≡ with_literal clause.old.items l) }
    ensures clause { OnOk result (IsTrue (is_clause 2200 clause.new.items)) }
    ensures size { OnOk result (length clause.new.items ≤ length clause.old.items + 1) }
{
    if !mentions(clause, l.var()) {
        clause.push(l)?;
    }
    Ok(())
}

/// Whether a literal of the variable stands in the clause.
fn mentions(clause: &[Lit], var: u32) -> bool
    ensures { result ≡ mentions clause.now var }
{
    clause.iter().any(|l| l.var() == var)
}

/// The variable, as a literal, that the next word gives: one past the first 200.
fn draw_variable(words: &mut Lcg64Xsh32) -> Lit
    ensures value { result ≡ drawn_variable words.old }
    ensures literal { IsTrue (is_literal 2200 result) }
    ensures next { words.new ≡ rest words.old }
{
    Lit::from_var(201 + words.next_word() % 2000, true)
}

/// The literal that the next two words give: by the first its variable, by the second its sign.
fn draw_literal(words: &mut Lcg64Xsh32) -> Lit
    ensures value { result ≡ drawn_literal words.old }
    ensures literal { IsTrue (is_literal 2200 result) }
    ensures next { words.new ≡ rest (rest words.old) }
{
    let var = 1 + words.next_word() % 2200;
    let sign = words.next_word();
    Lit::from_var(var, sign % 2 == 0)
}
