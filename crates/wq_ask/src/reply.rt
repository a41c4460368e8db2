//! The reply that refuses a line, as a value.
ghost use Rattle.std.specs.Prelude.{IfOk};
ghost use Rattle.wq_ask.specs.Reply.{IsReply, error_data};

use crate::refusal::Refusal;
use serde_json::{Value, json};
use std::alloc::{AllocError, Global};
use wq_base::VERSION;

/// The reply that refuses a line.
pub fn error_reply(alloc: Global, refusal: Refusal) -> Result<Value, AllocError>
    ensures { IfOk result (IsReply (error_data refusal)) }
{
    let text = refusal.text(alloc)?;
    json!(in alloc; { "error": text, "version": VERSION })
}
