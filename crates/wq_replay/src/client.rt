//! A client of a world that has subscriptions.

use wq_session::Session;

/// The number of a client, and the session that is kept for it.
#[derive(Drop)]
pub(crate) struct Client {
    pub(crate) number: i64,
    pub(crate) session: Session,
}
