//! The line to a client that gets no session.

use std::io::Write;
use wq_ask::Refusal;

/// Tells a client why there is no session for it: there are too many, or no memory or no thread is left. The line is a
/// constant, and takes no memory. A client that has gone gets nothing.
pub fn refuse<W: Write>(writer: &mut W, refusal: Refusal) {
    if let Some(line) = refusal.fixed_line() {
        let _ = writer.write_all(line);
    }
}
