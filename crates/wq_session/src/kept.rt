//! The triggers that a shelf keeps, as the definitions see them.

use wq_follow::Trigger;

/// A trigger that a shelf keeps. Contracts see its meaning.
pub trait Kept {
    ghost use Rattle.wq_follow.specs.Round.{TriggerData};

    // The trigger itself.
    ghost data: { Self → TriggerData };
}

impl Kept for Trigger {
    ghost use Rattle.wq_follow.specs.Followed.{trigger_data};

    ghost data = { λ t. trigger_data t };
}
