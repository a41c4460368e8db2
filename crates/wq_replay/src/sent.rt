//! The lines that the server sends.
ghost use Rattle.std.specs.Prelude.{◌≡◌};

use wq_base::Table;
use wq_session::Out;

/// The lines that the server sends for one happening.
#[derive(Drop)]
pub enum Sent {
    /// Lines to a client.
    ToClient(SentLines),
    /// A line, without its newline, about each start of a round, in the order of the triggers.
    OfRound(Table<Table<u8>>),
}

/// The lines to a client: a reply, or none, and then the lists of subscriptions.
#[derive(Drop)]
pub struct SentLines {
    pub(crate) client: i64,
    pub(crate) out: Out,
}

impl SentLines {
    /// The number of the client.
    pub fn client(&self) -> i64
        ensures { result ≡ self.now.client }
    {
        self.client
    }

    /// The lines, and whether the server is to end.
    pub fn out(&self) -> &Out
        ensures { result.now ≡ self.now.out }
    {
        &self.out
    }
}
