//! The fixed replies, with the newline at their end. They take no memory.
ghost use Rattle.std.specs.Prelude.{◌≡◌, IfSome, is_some};
ghost use Rattle.wq_ask.specs.Refusal.{is_fixed};
ghost use Rattle.wq_ask.specs.Reply.{error_data, reply_line};

use crate::refusal::Refusal;

/// The version alone.
pub const VERSION_ALONE: &[u8] = b"{\"version\":\"wq-1\"}\n";

/// The server ends.
pub const SHUTS_DOWN: &[u8] = b"{\"shutdown-server\":true,\"version\":\"wq-1\"}\n";

/// Memory ran out.
pub const NO_MEMORY: &[u8] = b"{\"error\":\"E60: no memory\",\"version\":\"wq-1\"}\n";

const LINE_TOO_LONG: &[u8] = b"{\"error\":\"E1: line too long\",\"version\":\"wq-1\"}\n";

const BSER: &[u8] = b"{\"error\":\"E6: BSER is not spoken here\",\"version\":\"wq-1\"}\n";

const TOO_MANY_SESSIONS: &[u8] = b"{\"error\":\"E17: too many sessions\",\"version\":\"wq-1\"}\n";

impl Refusal {
    /// The line that refuses a client so, with the newline at its end, if it is kept. It takes no memory. The lines
    /// that end a session, or take its place, are kept, and the one that says that memory ran out.
    #[tactic(auto, using(crate::proofs::Constants::too_long, crate::proofs::Constants::binary, crate::proofs::Constants::too_many, crate::proofs::Constants::ran_out))]
    pub fn fixed_line(self) -> Option<&'static [u8]>
        ensures line { IfSome result (λ line. line.now ≡ reply_line (error_data self)) }
        ensures fixed { is_some result ≡ is_fixed self }
    {
        match self {
            Refusal::LineTooLong => Some(LINE_TOO_LONG),
            Refusal::Bser => Some(BSER),
            Refusal::TooManySessions => Some(TOO_MANY_SESSIONS),
            Refusal::NoMemory => Some(NO_MEMORY),
            _ => None,
        }
    }
}
