//! The document of a reduction, and an unfinished one.
ghost use Rattle.std.specs.Prelude.{◌≡◌, IfOk, IsTrue};
ghost use Rattle.lk_model.specs.Formulas.Formula.{is_formula, IsWithinLimits};
ghost use Rattle.lk_model.specs.Formulas.Lean.{are_positions};
ghost use Rattle.reductions.specs.Founds.{document_of, open_document_of};

use lk_model::{Body, DoneDocument, Formula, List, Lit, OpenDocument, OutOfMemory, Round};
use std::alloc::Global;

/// What a reducer finds in a formula.
#[derive(Drop)]
pub struct Found {
    /// The positions of the kept clauses, ascending and counted from 1.
    pub kept: List<u32>,
    /// The literals that are made true, ascending by variable. They satisfy the other clauses.
    pub set: List<Lit>,
    /// What shows this: the certificate of the class.
    pub body: Body,
}

/// The document that states what was found, with the clauses of the formula at the kept positions. `protect` is its
/// line of protected variables, ascending, if it has one. The error is that there is no memory.
pub fn document_of(
    alloc: Global,
    f: &Formula,
    protect: Option<List<u32>>,
    found: Found,
) -> Result<DoneDocument, OutOfMemory>
    requires positions { IsTrue (are_positions f.now found.kept) }
    ensures document { IfOk result (λ d. d ≡ document_of f.now protect found) }
    ensures formula { IsTrue (is_formula f.now) }
    ensures limits { IsWithinLimits f.now }
{
    let vars = f.vars();
    let texts = f.clauses_at(alloc, found.kept.as_slice())?;
    Ok(DoneDocument {
        vars,
        clauses: f.len(),
        protect,
        kept: found.kept,
        set: found.set,
        body: found.body,
        texts,
    })
}

/// The unfinished document of rounds with `learned` learned clauses, with all clauses of the formula. `protect` is its
/// line of protected variables, ascending, if it has one.
pub fn open_document_of(
    f: Formula,
    protect: Option<List<u32>>,
    learned: u64,
    rounds: List<Round>,
) -> OpenDocument
    ensures document { result ≡ open_document_of f protect learned rounds }
    ensures formula { IsTrue (is_formula f) }
    ensures limits { IsWithinLimits f }
{
    OpenDocument {
        vars: f.vars(),
        clauses: f.len(),
        protect,
        learned,
        rounds,
        texts: f,
    }
}
