//! A law over the definitions.
ghost use Rattle.check_answers.specs.AnswerLaw.{AnswerLaw};

/// No check of an answer in form fails exactly where its model satisfies each clause, where each of its steps
/// states the clause of its chain, or where its core is shown. Then the formula has that model, or it has none
/// and the clauses that the refutation uses are in its general kernel, or the core is minimally unsatisfiable
/// and in that kernel.
#[tactic(auto, using(crate::proofs::AnswerLaws::answer_law))]
pub fn answer_law()
    ensures { AnswerLaw }
{}
