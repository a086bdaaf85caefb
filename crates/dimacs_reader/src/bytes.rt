//! Single bytes.
ghost use Rattle.std.specs.Prelude.{◌≡◌, ◌+◌, ◌-◌, ◌*◌, ◌^◌, min, false, IfSome, IsNone, IsTrue};
ghost use Rattle.std.specs.Char.{is_ascii_digit};
ghost use Rattle.dimacs_reader.specs.Bytes.{IsOfKind};

/// What a byte is in a text.
#[derive(Clone, Copy)]
pub(crate) enum ByteKind {
    /// The end of a line.
    Newline,
    /// A space, a tab or a carriage return, which ends a word.
    Blank,
    /// A byte of a word.
    Word,
}

/// What a byte is in a text.
pub(crate) fn byte_kind(byte: u8) -> ByteKind
    ensures { IsOfKind byte result }
{
    match byte {
        b'\n' => ByteKind::Newline,
        b' ' | b'\t' | b'\r' => ByteKind::Blank,
        _ => ByteKind::Word,
    }
}

/// The value of a digit.
pub(crate) fn digit_of(byte: u8) -> Option<u32>
    ensures some { IfSome result (λ d. IsTrue (is_ascii_digit byte) × (d ≡ byte - 48)) }
    ensures none { IsNone result → is_ascii_digit byte ≡ false }
{
    if byte.is_ascii_digit() {
        Some(u32::from(byte - b'0'))
    } else {
        None
    }
}

/// A number with one more digit after it, or 2^32 - 1 where that is more.
pub(crate) fn with_digit(number: u32, digit: u32) -> u32
    ensures { result ≡ min (10 * number + digit) (2 ^ 32 - 1) }
{
    number.saturating_mul(10).saturating_add(digit)
}
