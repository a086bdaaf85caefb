//! The gate that each half of the work enters.
//!
//! The program lets all halves through. A test may hold one back, so that halves on threads start in an order that it
//! chooses.
/// Is called when a half of the work starts. Halves on two threads share one gate.
pub trait Gate: Sync {
    /// The half of that number is about to start, and does once this returns.
    fn enter(&self, half: u32);
}

/// Lets every half through at once.
#[derive(Clone, Copy, Debug, PartialEq, Eq)]
pub struct OpenGate;

impl Gate for OpenGate {
    fn enter(&self, _half: u32) {}
}
