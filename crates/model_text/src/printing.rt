//! The line of a model.
ghost use Rattle.std.specs.Prelude.{◌≡◌, ◌∷◌, IfOk, codes};
ghost use Rattle.lk_model.specs.Texts.PlainText.{line, literal_words};

use line_text::{put, put_clause_line};
use lk_model::{Lit, OutOfMemory};
use std::alloc::Global;

/// The line that states a model as solvers do: `v`, its literals, and 0. Fails only if memory for the
/// text runs out.
pub fn print_model(alloc: Global, literals: &[Lit]) -> Result<Vec<u8>, OutOfMemory>
    ensures { IfOk result (λ text. text.items ≡ line (codes "v" ∷ literal_words literals.now)) }
{
    let mut out = Vec::new(alloc);
    put(&mut out, b"v ")?;
    put_clause_line(&mut out, literals)?;
    Ok(out)
}
