//! Laws over documents and their texts.
ghost use Rattle.lk_model.specs.Laws.{StopsOnce};
ghost use Rattle.cert_text.specs.ReadTexts.{IsOfOneDocument, HasOneText, StopsNowhere};

/// A text is that of one document at most, and a document has one text. The text of a document stops at
/// no line, and no text stops at two. So what `read` returns is determined, unless memory runs out.
#[tactic(auto, using(crate::proofs::ReadLaws::has_one_text, lk_model::proofs::ReadingLaws::stops_once))]
pub fn document_text_law()
    ensures once { IsOfOneDocument }
    ensures spelled { HasOneText }
    ensures never { StopsNowhere }
    ensures stop { StopsOnce }
{}
