//! What follows from the clauses of a run.
ghost use Rattle.workbench.specs.Agreement.{WrittenIsAccepted, StoppedIsUnfinished};
ghost use Rattle.workbench.specs.Headline.{Headline};
ghost use Rattle.workbench.specs.StatusClaim.{StatusClaim};
ghost use Rattle.workbench.specs.KeptClauses.{KeptLaw};
ghost use Rattle.workbench.specs.WrittenAnswers.{SolvedIsVerified, WrittenVerifiesAsAccepted};
ghost use Rattle.workbench.specs.WrittenAnswers.{UnsolvedChecksAsUnfinished};
ghost use Rattle.workbench.specs.WrittenChecks.{WrittenChecksAsAccepted, StoppedChecksAsUnfinished};
ghost use Rattle.workbench.specs.WrittenCores.{ExtractedIsVerified, ExtractedVerifiesAsAccepted};
ghost use Rattle.workbench.specs.WrittenCores.{UnextractedChecksAsUnfinished};

/// The claim of leank in two records. `Headline` says what a run with a result has written, that `check` and `verify`
/// accept it, and when there is a result; `StatusClaim` which status there is, and what `out` and `say` have then. They
/// speak of the runs of which `run` ensures `runs`, where the inputs are visible and the sinks are empty at first.
pub fn headline_law()
    ensures results { Headline }
    ensures statuses { StatusClaim }
{}

/// What `reduce` writes of a text with status 0, for any class, is accepted for that text, and of what it writes with
/// status 5 no check fails. So if both texts are visible, `check` of the two is decided: status
/// 0 and `accepted`, or 5 and `unfinished` with the number of learned clauses.
pub fn written_document_law()
    ensures done { WrittenIsAccepted }
    ensures budget { StoppedIsUnfinished }
    ensures accepted { WrittenChecksAsAccepted }
    ensures unfinished { StoppedChecksAsUnfinished }
{}

/// What `solve` writes of a text with status 10 or 20 is an answer for that text of which no check fails, and of what
/// it writes with 5 no check fails either. So if both texts are visible, `verify` of the two is
/// decided: status 0 and `accepted`; and `check` of the two: 5, and `unfinished` with the number of learned clauses.
pub fn written_answer_law()
    ensures texts { SolvedIsVerified }
    ensures accepted { WrittenVerifiesAsAccepted }
    ensures unfinished { UnsolvedChecksAsUnfinished }
{}

/// What `mus` writes of a text with status 0 or 10 is an answer for that text of which no check fails. So if both
/// texts are visible, `verify` of the two is decided: status 0 and `accepted`. Up to 2^30 bytes, a
/// core that it writes is DIMACS of the core's clauses, and `check` of what it writes with 5 as the formula and as the
/// document is decided: 5, and `unfinished` with the number of learned clauses.
pub fn written_core_law()
    ensures texts { ExtractedIsVerified }
    ensures accepted { ExtractedVerifiesAsAccepted }
    ensures unfinished { UnextractedChecksAsUnfinished }
{}

/// What is kept of a text is a function of the text, the class and the list of protected variables: two documents that
/// are accepted for it have the same line of kept positions and the same clause lines, whoever made them; and so has
/// what `reduce` writes, whatever the other options are.
pub fn kept_clauses_law()
    ensures { KeptLaw }
{}
