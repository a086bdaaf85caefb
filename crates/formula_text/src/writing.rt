//! The lines of a formula, written.
ghost use Rattle.std.specs.Prelude.{◌≡◌, ◌++◌, ◌∷◌, [], OnOk, codes, map};
ghost use Rattle.std.specs.List.{flat_map};
ghost use Rattle.lk_model.specs.Texts.PlainText.{line, literal_words, number_words, plain_text};
ghost use Rattle.lk_model.specs.Documents.Text.{comment};

use line_text::{put, put_clause_line, put_number};
use lk_model::{Formula, OutOfMemory};

/// Appends the comment line of the numbers of variables and clauses. Fails only if memory runs out.
pub fn put_size_line(out: &mut Vec<u8>, vars: u32, clauses: u32) -> Result<(), OutOfMemory>
    ensures { OnOk result (out.new.items
        ≡ out.old.items ++ line (comment (codes "formula") (number_words (vars ∷ clauses ∷ [])))) }
{
    put(out, b"c formula ")?;
    put_number(out, u64::from(vars), b' ')?;
    put_number(out, u64::from(clauses), b'\n')
}

/// Appends the plain text of a formula: its problem line, and a line for each clause. Fails only
/// if memory runs out.
pub fn put_formula(out: &mut Vec<u8>, f: &Formula) -> Result<(), OutOfMemory>
    ensures { OnOk result (out.new.items ≡ out.old.items ++ plain_text f.now) }
{
    put_problem_line(out, f.vars(), f.len())?;
    put_clauses(out, f)
}

/// Appends the problem line.
fn put_problem_line(out: &mut Vec<u8>, vars: u32, clauses: u32) -> Result<(), OutOfMemory>
    ensures { OnOk result (out.new.items ≡ out.old.items
        ++ line (codes "p" ∷ codes "cnf" ∷ number_words (vars ∷ clauses ∷ []))) }
{
    put(out, b"p cnf ")?;
    put_number(out, u64::from(vars), b' ')?;
    put_number(out, u64::from(clauses), b'\n')
}

/// Appends a line for each clause.
fn put_clauses(out: &mut Vec<u8>, f: &Formula) -> Result<(), OutOfMemory>
    ensures { OnOk result (out.new.items
        ≡ out.old.items ++ flat_map line (map literal_words f.now.clauses)) }
{
    for k in 0..f.len() {
        put_clause_line(out, f.clause(k + 1))?;
    }
    Ok(())
}
