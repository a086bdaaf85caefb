//! What is asked of a step of a round.
ghost use Rattle.std.specs.Prelude.{◌≡◌, ◌<◌, length};
ghost use Rattle.check_places.specs.Places.{is_reached};

/// Whether the step at an index is reached, counted from 0: the last one of a round is, and each that has a mark,
/// since a reached step names it.
pub fn is_reached(marks: &[bool], i: usize) -> bool
    requires { i < length marks.now }
    ensures { result ≡ is_reached marks.now i }
{
    i + 1 == marks.len() || marks[i]
}
