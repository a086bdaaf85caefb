//! Results that lie outside ±(2^127 - 1).

/// What the result is of its operands.
#[derive(Clone, Copy, PartialEq, Eq, Debug)]
pub enum Op {
    Product,
    Sum,
    Difference,
}

/// An operation and its operands, in the order in which they are written.
#[derive(Clone, Copy, PartialEq, Eq, Debug)]
pub struct Wide {
    pub op: Op,
    pub left: i128,
    pub right: i128,
}
