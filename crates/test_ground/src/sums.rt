//! What is kept of a text that is too long to be shown.
use std::alloc::AllocError;

/// Where both halves of a checksum begin again.
const TURN: u32 = 65_521;

/// How long a text is, in how many pieces it came, and the halves of its checksum by Adler.
#[derive(Drop)]
pub(crate) struct Summary {
    bytes: u64,
    pieces: u64,
    low: u32,
    high: u32,
}

impl Summary {
    /// Of no text yet.
    pub fn new() -> Summary {
        Summary {
            bytes: 0,
            pieces: 0,
            low: 1,
            high: 0,
        }
    }

    /// Takes the next piece.
    pub fn add(&mut self, piece: &[u8]) {
        self.pieces = self.pieces.wrapping_add(1);
        for byte in piece {
            self.bytes = self.bytes.wrapping_add(1);
            self.low = self.low.wrapping_add(u32::from(*byte)) % TURN;
            self.high = self.high.wrapping_add(self.low) % TURN;
        }
    }

    /// Writes it, with the checksum of the whole text.
    pub fn put(&self, out: &mut String) -> Result<(), AllocError> {
        let (bytes, pieces) = (self.bytes, self.pieces);
        let sum = self.high.wrapping_mul(65_536).wrapping_add(self.low);
        write!(out, " {bytes} bytes in {pieces} pieces, {sum}")
    }
}
