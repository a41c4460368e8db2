//! The session that asks roots.

use wq_base::Stays;

/// A session that asks roots, which may have to wait for others then. It hears of that before.
pub trait Caller {
    /// The session has read its line, and waits for others from now on, or looks for files.
    fn has_read(&self);
}

/// A session that nobody sees waiting.
impl Caller for Stays {
    fn has_read(&self) {}
}
