//! The places at which instructions go on.
ghost use Rattle.std.specs.Prelude.{◌≡◌};
ghost use Rattle.wq_code.specs.Flow.{flow};

use crate::operation::Op;

/// The place at which an instruction goes on. Places count from 0.
#[derive(Clone, Copy, Debug)]
pub enum Flow {
    /// At the place after its own.
    Next,
    /// At this place.
    To(u32),
    /// At this place if the flag on top is this one, and else at the place after its own.
    Fork(u32, bool),
    /// Nowhere: the flag on the stack is the answer.
    Stop,
}

impl Op {
    /// The place at which the instruction goes on.
    pub fn flow(self) -> Flow
        ensures { result ≡ flow self }
    {
        match self {
            Op::Jump(place) => Flow::To(place),
            Op::JumpIfNot(place) => Flow::Fork(place, false),
            Op::JumpIf(place) => Flow::Fork(place, true),
            Op::Return => Flow::Stop,
            _ => Flow::Next,
        }
    }
}
