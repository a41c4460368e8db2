//! The version of the protocol.

/// The text of the key `version` in every reply.
pub const VERSION: &str = "wq-1";
