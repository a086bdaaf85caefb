//! Reading on in one of several texts in memory.
ghost use Rattle.std.specs.Prelude.{◌≡◌, ℕ, ◌^◌, ◌<◌, ◌++◌, length, take, drop, min, None, Some, IfNone};
ghost use Rattle.std.specs.Prelude.{IfSome};
ghost use Rattle.lk_outside.specs.Places.{IsIn, rest_from, text_at};
ghost use Rattle.lk_outside.specs.ShelfState.{bytes_under};

use crate::texts::{Bytes, Name};

/// A text among several, and how far it is read.
#[derive(Clone, Copy, Debug)]
pub(crate) struct Place {
    pub file: usize,
    pub read: usize,
}

/// Where the first text of that name begins.
pub(crate) fn place_of(files: &[(Name, Bytes)], name: &[u8]) -> Option<Place>
    ensures absent { IfNone result (bytes_under files.now name.now ≡ None) }
    ensures within { IfSome result (IsIn files.now) }
    ensures found { IfSome result
        (λ p. bytes_under files.now name.now ≡ Some (rest_from files.now p)) }
{
    for (file, entry) in files.iter().enumerate() {
        if entry.0.as_bytes() == name {
            return Some(Place { file, read: 0 });
        }
    }
    None
}

/// What is left of the text at a place.
fn rest_of(files: &[(Name, Bytes)], place: Place) -> &[u8]
    requires { IsIn files.now place }
    ensures rest { result.now ≡ rest_from files.now place }
    ensures small { length (text_at files.now place.file) < 2 ^ 64 }
{
    let entry = &files[place.file];
    &entry.1.as_slice()[place.read..]
}

/// Copies as many bytes as fit, at most `chunk`.
fn copy_front(rest: &[u8], chunk: usize, piece: &mut [u8]) -> usize
    ensures count { result ≡ min (min chunk (length piece.old)) (length rest.now) }
    ensures piece { piece.new ≡ take result rest.now ++ drop result piece.old }
{
    let count = chunk.min(piece.len()).min(rest.len());
    piece[..count].copy_from_slice(&rest[..count]);
    count
}

/// Reads on from a place, at most `chunk` bytes, and says how many.
pub(crate) fn read_on(
    files: &[(Name, Bytes)],
    place: &mut Place,
    chunk: usize,
    piece: &mut [u8],
) -> usize
    requires { IsIn files.now place.old }
    ensures within { IsIn files.now place.new }
    ensures count { result ≡
        min (min chunk (length piece.old)) (length (rest_from files.now place.old)) }
    ensures rest { rest_from files.now place.new ≡ drop result (rest_from files.now place.old) }
    ensures piece { piece.new ≡
        take result (rest_from files.now place.old) ++ drop result piece.old }
{
    let rest = rest_of(files, *place);
    let count = copy_front(rest, chunk, piece);
    place.read += count;
    count
}
