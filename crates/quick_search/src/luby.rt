//! How long searches go on before they begin anew.
//!
//! A search that is begun anew early pays little for a bad beginning, and one that goes on long pays little for
//! beginning. Where nothing is known, no sequence of lengths is better by more than a logarithm than this one: each
//! time that two of a length have come, one of twice the length comes (Luby, Sinclair and Zuckerman, "Optimal Speedup of
//! Las Vegas Algorithms", 1993; here by the reluctant doubling of Knuth, "The Art of Computer Programming", 4B, 7.2.2.2).

/// The sequence 1, 1, 2, 1, 1, 2, 4, 1, 1, 2, 1, 1, 2, 4, 8 and so on.
#[derive(Clone, Copy)]
pub(crate) struct Luby {
    /// How many terms are 1, up to the one that comes next.
    ones: u64,
    /// The term that comes next.
    term: u64,
}

impl Luby {
    /// The sequence from its first term on.
    pub fn new() -> Luby {
        Luby { ones: 1, term: 1 }
    }

    /// The term that comes next.
    pub fn next(&mut self) -> u64 {
        let term = self.term;
        if self.ones & self.ones.wrapping_neg() == term {
            self.ones = self.ones.wrapping_add(1);
            self.term = 1;
        } else {
            self.term = term.wrapping_mul(2);
        }
        term
    }
}
