//! The limit of ticks.

use wq_base::MAX_NUMBER;

/// The last tick that a view may reach.
pub const MAX_TICK: u64 = MAX_NUMBER;
