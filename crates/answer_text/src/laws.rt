//! A law over the definitions.
ghost use Rattle.answer_text.specs.AnswerTextLaw.{AnswerTextLaw};

/// A text is that of one answer at most, it stops at no line then, and no text stops at two. So what
/// `read_answer` returns is determined, unless memory runs out.
#[tactic(auto, using(crate::proofs::AnswerReads::answer_text_law))]
pub fn answer_text_law()
    ensures { AnswerTextLaw }
{}
