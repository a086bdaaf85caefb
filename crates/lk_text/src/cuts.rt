//! Lines and words.
ghost use Rattle.std.specs.Prelude.{◌≡◌, ◌≤◌, ◌<◌, ◌↔◌, ℕ, length, slice_index, slice_range, true, false, IsNone};
ghost use Rattle.std.specs.Prelude.{IfSome, IsTrue};
ghost use Rattle.lk_model.specs.Texts.Lines.{is_blank};
ghost use Rattle.lk_text.specs.Cutting.{is_one_line, are_blank, has_no_blank, IsNextLine, IsNextWord, HasNoWord};

/// Where a line or a word lies in some bytes: from `begin` up to and without `end`. The search for the
/// next one goes on at `next`.
#[derive(Clone, Copy, PartialEq, Eq, Debug)]
pub struct Cut {
    pub begin: usize,
    pub end: usize,
    pub next: usize,
}

/// The line that begins at `from`, without its byte 10, or none at the end of the bytes. `next` is past
/// the line's byte 10 where it has one.
pub fn next_line(bytes: &[u8], from: usize) -> Option<Cut>
    requires { from ≤ length bytes.now }
    ensures none { IsNone result ↔ (from ≡ length bytes.now) }
    ensures line { IfSome result (IsNextLine bytes.now from) }
{
    if from == bytes.len() {
        return None;
    }
    let end = line_end(bytes, from);
    let next = if end < bytes.len() { end + 1 } else { end };
    Some(Cut {
        begin: from,
        end,
        next,
    })
}

/// The first word at or after `from`, or none where only blanks are left. Blanks are space, tab and
/// carriage return. `next` is `end`.
pub fn next_word(bytes: &[u8], from: usize) -> Option<Cut>
    requires within { from ≤ length bytes.now }
    requires line { IsTrue (is_one_line bytes.now) }
    ensures none { IsNone result ↔ HasNoWord bytes.now from }
    ensures word { IfSome result (IsNextWord bytes.now from) }
{
    let begin = word_begin(bytes, from);
    if begin == bytes.len() {
        return None;
    }
    let end = word_end(bytes, begin);
    Some(Cut {
        begin,
        end,
        next: end,
    })
}

/// Whether the byte stands between words.
fn is_blank(byte: u8) -> bool
    ensures { result ≡ is_blank byte }
{
    byte == b' ' || byte == b'\t' || byte == b'\r'
}

/// The first place from there on with a byte 10, or the end.
fn line_end(bytes: &[u8], from: usize) -> usize
    requires { from ≤ length bytes.now }
    ensures low { from ≤ result }
    ensures high { result ≤ length bytes.now }
    ensures passed { IsTrue (is_one_line (slice_range bytes.now from result)) }
    ensures stopped { result < length bytes.now → slice_index bytes.now result ≡ 10 }
{
    for i in from..bytes.len() {
        if bytes[i] == b'\n' {
            return i;
        }
    }
    bytes.len()
}

/// The first place from there on with a byte that is no blank, or the end.
fn word_begin(bytes: &[u8], from: usize) -> usize
    requires { from ≤ length bytes.now }
    ensures low { from ≤ result }
    ensures high { result ≤ length bytes.now }
    ensures passed { IsTrue (are_blank (slice_range bytes.now from result)) }
    ensures stopped { result < length bytes.now → is_blank (slice_index bytes.now result) ≡ false }
{
    for i in from..bytes.len() {
        if !is_blank(bytes[i]) {
            return i;
        }
    }
    bytes.len()
}

/// The first place from there on with a blank, or the end.
fn word_end(bytes: &[u8], from: usize) -> usize
    requires { from ≤ length bytes.now }
    ensures low { from ≤ result }
    ensures high { result ≤ length bytes.now }
    ensures passed { IsTrue (has_no_blank (slice_range bytes.now from result)) }
    ensures stopped { result < length bytes.now → is_blank (slice_index bytes.now result) ≡ true }
{
    for i in from..bytes.len() {
        if is_blank(bytes[i]) {
            return i;
        }
    }
    bytes.len()
}
