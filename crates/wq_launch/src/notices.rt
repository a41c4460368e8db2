//! The lines to the operator of the server.

/// Tells the operator of the server what happens.
pub trait Notices {
    /// Tells a line.
    fn tell(&self, line: &str);
}
