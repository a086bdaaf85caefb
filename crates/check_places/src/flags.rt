//! What is asked of flags of literals.
ghost use Rattle.std.specs.Prelude.{◌≡◌, ◌<◌, length, All};
ghost use Rattle.std.specs.List.{list_any};
ghost use Rattle.lk_model.specs.Formulas.Literal.{rank_of};
ghost use Rattle.check_places.specs.Flags.{has_literal};

use lk_model::{Lit, LitTable};

/// Whether the flag of one of some literals is up.
pub fn has_any(flags: &LitTable<bool>, literals: &[Lit]) -> bool
    requires { All (λ l. rank_of l < length flags.now) literals.now }
    ensures { result ≡ list_any (has_literal flags.now) literals.now }
{
    literals.iter().any(|l| has(flags, *l))
}

/// Whether the flag of a literal is up.
fn has(flags: &LitTable<bool>, l: Lit) -> bool
    requires { rank_of l < length flags.now }
    ensures { result ≡ has_literal flags.now l }
{
    flags[l]
}
