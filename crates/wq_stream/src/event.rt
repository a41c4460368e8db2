//! The events of a session. Another crate handles them.

use wq_base::Table;

/// The events that a session takes, one after the other. The first three come from the client's stream of bytes.
#[derive(Debug, Drop)]
pub enum Event {
    /// A line without its newline, of at most 1,048,576 bytes, which does not begin with byte 0.
    Line(Table<u8>),
    /// The first 1,048,577 bytes of a line hold no newline. No event of the stream follows.
    Long,
    /// A line begins with byte 0, as the messages of Watchman's BSER do. No event of the stream follows.
    Binary,
    /// It is time to look for changes below the root of this number.
    Idle(u64),
    /// The client has gone, or the server ends.
    End,
    /// The stream cannot be read any more.
    Fault,
}
