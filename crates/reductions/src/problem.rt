//! What is to be reduced: a formula, some of whose variables may be protected.
ghost use Rattle.std.specs.Prelude.{◌≡◌, IfOk, IsTrue};
ghost use Rattle.lk_model.specs.Formulas.Formula.{is_formula, IsWithinLimits};
ghost use Rattle.lk_model.specs.Formulas.Lean.{are_positions};
ghost use Rattle.reductions.specs.Founds.{document_of, open_document_of};
ghost use Rattle.reductions.specs.Protecting.{line_of, left_of, IsProblem};

use crate::document::{Found, document_of, open_document_of};
use crate::protect::{Protection, protection_of};
use lk_model::{DoneDocument, Formula, List, OpenDocument, OutOfMemory, Round};
use std::alloc::Global;

/// A formula, and what is protected in it where there is a list of variables.
#[derive(Drop)]
pub struct Problem {
    formula: Formula,
    protection: Option<Protection>,
}

impl Problem {
    /// A formula, with those of the listed numbers protected that are variables of it. They may stand in any order, and
    /// more than once. Its documents have a line of protected variables exactly if there is a list, be it empty. The
    /// error is that there is no memory.
    pub fn new(
        alloc: Global,
        formula: Formula,
        listed: Option<List<u32>>,
    ) -> Result<Problem, OutOfMemory>
        ensures { IfOk result (IsProblem formula listed) }
    {
        match listed {
            Some(listed) => {
                let protection = protection_of(alloc, &formula, listed.as_slice())?;
                Ok(Problem {
                    formula,
                    protection: Some(protection),
                })
            }
            None => Ok(Problem {
                formula,
                protection: None,
            }),
        }
    }

    /// What a reducer looks at: the formula of as many variables and clauses, without the literals on protected
    /// variables.
    pub fn left(&self) -> &Formula
        ensures { result.now ≡ left_of self.now }
    {
        match &self.protection {
            Some(protection) => &protection.left,
            None => &self.formula,
        }
    }

    /// The document that states what was found in `left`, with the clauses of the formula at the kept positions. The
    /// error is that there is no memory.
    pub fn document(self, alloc: Global, found: Found) -> Result<DoneDocument, OutOfMemory>
        requires positions { IsTrue (are_positions self.formula found.kept) }
        ensures document { IfOk result (λ d. d ≡ document_of self.formula (line_of self) found) }
        ensures formula { IsTrue (is_formula self.formula) }
        ensures limits { IsWithinLimits self.formula }
    {
        let Problem {
            formula,
            protection,
        } = self;
        document_of(alloc, &formula, protection.map(|p| p.line), found)
    }

    /// The unfinished document of rounds that were found in `left` with `learned` learned clauses, with all clauses of
    /// the formula.
    pub fn open_document(self, learned: u64, rounds: List<Round>) -> OpenDocument
        ensures document { result ≡ open_document_of self.formula (line_of self) learned rounds }
        ensures formula { IsTrue (is_formula self.formula) }
        ensures limits { IsWithinLimits self.formula }
    {
        let Problem {
            formula,
            protection,
        } = self;
        open_document_of(formula, protection.map(|p| p.line), learned, rounds)
    }
}
