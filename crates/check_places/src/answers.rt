//! Answers of searches in several ranges of places.
ghost use Rattle.std.specs.Prelude.{◌≡◌};
ghost use Rattle.check_places.specs.FirstAnswers.{first_answer};

use lk_model::OutOfMemory;

/// The first answer that is a place or an error.
pub fn first_answer<P: Copy>(
    answers: &[Result<Option<P>, OutOfMemory>],
) -> Result<Option<P>, OutOfMemory>
    ensures { result ≡ first_answer answers.now }
{
    for answer in answers {
        if let Some(place) = (*answer)? {
            return Ok(Some(place));
        }
    }
    Ok(None)
}
