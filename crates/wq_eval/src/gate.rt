//! The gate that a worker calls as it begins a piece.

/// A worker calls it as it begins a piece. It may hold the worker up, and changes no answer.
pub trait Gate {
    /// The worker that calls it begins the piece of this number.
    fn enter(&self, piece: u32);
}

/// A gate that lets each worker pass at once.
#[derive(Drop)]
pub struct OpenGate {}

impl Gate for OpenGate {
    fn enter(&self, _piece: u32) {}
}
