//! The output of a session for an event: replies that were made, and fixed ones.
ghost use Rattle.std.specs.Prelude.{◌≡◌, ◌⊎◌, ◌++◌, codes, false, option_map, IfOk, MatchResult};
ghost use Rattle.wq_session.specs.Out.{MayRefuse, replies, runs_out, saying_text, saying_with};
ghost use Rattle.wq_session.specs.Out.{gone, shuts_with, silence, tells_lists, settled, unanswered};
ghost use Rattle.wq_ask.specs.Reply.{error_data};
ghost use Rattle.wq_session.specs.Said.{line_in};
ghost use Rattle.wq_reply.specs.Answer.{text_in};
ghost use Rattle.wq_ask.specs.Server.{shutdown_data, version_data};
ghost use Rattle.serde_json.specs.View.{view as data_of};
ghost use Rattle.serde_json.specs.Written.{has_float};

use crate::cursor::Cursor;
use crate::line::Line;
use serde_json::Value;
use std::alloc::{AllocError, Global};
use std::marker::Model;
use wq_ask::{NO_MEMORY, Refusal, SHUTS_DOWN, VERSION_ALONE, error_reply};
use wq_base::Unanswered;
use wq_reply::{LongReply, ReplyText};

/// The output of a session for an event: a reply or none, the lists of subscriptions that follow it, and whether the
/// session goes on. The reply and each list are compact JSON with keys in byte order, and a newline.
pub struct Out {
    pub(crate) reply: Reply,
    pub(crate) lists: Option<Vec<Line>>,
    pub(crate) goes_on: bool,
    pub(crate) shuts: bool,
    pub(crate) unset: Option<Cursor>,
}

/// The line of a reply: its text and a newline, so that the server writes both at once.
#[derive(Drop)]
pub(crate) enum Reply {
    /// There is no reply.
    None,
    /// A reply that was made.
    Made(Line),
    /// A fixed reply, which takes no memory.
    Fixed(&'static [u8]),
    /// A long reply, which is printed while it is sent.
    Long(LongReply),
}

/// The line of a reply: its text and the newline after it.
#[derive(Clone, Copy)]
pub enum ReplyLine<'a> {
    /// There is no reply.
    None,
    /// The line in one piece.
    Whole(&'a [u8]),
    /// A long reply, which writes its line itself.
    Long(&'a LongReply),
}

impl ReplyLine<'_> {
    ghost use Rattle.std.specs.Prelude.{◌≡◌, is_none};
    ghost use Rattle.wq_session.specs.Said.{line_in};

    /// Whether there is no reply.
    pub fn is_none(&self) -> bool
        ensures { result ≡ is_none (line_in self.now) }
    {
        matches!(self, ReplyLine::None)
    }
}

// An output is let go by one call, wherever a function gives up.
impl Drop for Out {
    fn drop(self) {
        let Out {
            reply: _,
            lists: _,
            goes_on: _,
            shuts: _,
            unset: _,
        } = self;
    }
}

impl Model for Out {
    ghost use Rattle.wq_session.specs.Out.{OutData};
    ghost use Rattle.wq_session.specs.Said.{EndsLine, list_texts, reply_text};

    ghost Value = { OutData };

    ghost view = { λ o. record {
      reply = reply_text o.reply;
      lists = list_texts o.lists;
      goes_on = o.goes_on;
      shuts = o.shuts;
      unset = o.unset;
    } };

    ghost invariant = { λ o. EndsLine o.reply };
}

impl Out {
    /// The line of the reply: its text and the newline after it.
    pub fn line(&self) -> ReplyLine<'_>
        ensures { line_in result ≡ option_map (λ text. text ++ codes "\n") self.now.reply }
    {
        match &self.reply {
            Reply::None => ReplyLine::None,
            Reply::Made(line) => ReplyLine::Whole(line.as_bytes()),
            Reply::Fixed(line) => ReplyLine::Whole(line),
            Reply::Long(reply) => ReplyLine::Long(reply),
        }
    }

    /// The lists of subscriptions that follow the reply.
    pub fn lists(&self) -> &[Line]
        ensures { result.now ≡ self.now.lists }
    {
        match &self.lists {
            None => &[],
            Some(lists) => lists.as_slice(),
        }
    }

    /// Whether the session goes on.
    pub fn goes_on(&self) -> bool
        ensures { result ≡ self.now.goes_on }
    {
        self.goes_on
    }

    /// Whether the server is to end.
    pub fn shuts(&self) -> bool
        ensures { result ≡ self.now.shuts }
    {
        self.shuts
    }

    /// The cursor to unset on the shelf, which the output no longer names then.
    pub fn settle(&mut self) -> Option<Cursor>
        ensures named { result ≡ self.old.unset }
        ensures taken { self.new ≡ settled self.old }
    {
        self.unset.take()
    }

    /// The reply of this text, with a newline put to it, and then the session goes on.
    pub fn of_text(text: Vec<u8>) -> Result<Out, AllocError>
        ensures { IfOk result (λ out. out ≡ saying_text text.items) }
    {
        Ok(Out {
            reply: Reply::Made(Line::of_text(text)?),
            lists: None,
            goes_on: true,
            shuts: false,
            unset: None,
        })
    }

    /// The reply of this text, if it was made. If memory ran out for the text or the newline, the output says so. If the
    /// client has gone, nothing is written for it. Both have the cursor that was moved for the reply.
    pub fn of_answer(text: Result<ReplyText, Unanswered>, cursor: Option<Cursor>) -> Out
        ensures { MatchResult text
            (λ text. (result ≡ saying_text (text_in text)) ⊎ (result ≡ runs_out cursor))
            (λ why. result ≡ unanswered why cursor) }
    {
        match text {
            Ok(ReplyText::Whole(text)) => match Out::of_text(text) {
                Ok(out) => out,
                Err(_) => Out::runs_out(cursor),
            },
            Ok(ReplyText::Long(reply)) => Out::of_long(reply),
            Err(Unanswered::NoMemory) => Out::runs_out(cursor),
            Err(Unanswered::Gone) => Out::gone(cursor),
        }
    }

    /// This long reply, and then the session goes on.
    fn of_long(reply: LongReply) -> Out
        ensures { result ≡ saying_text reply }
    {
        Out {
            reply: Reply::Long(reply),
            lists: None,
            goes_on: true,
            shuts: false,
            unset: None,
        }
    }

    /// A reply, and the list that follows it, of these texts, and then the session goes on.
    pub fn with_list(alloc: Global, text: Vec<u8>, list: Vec<u8>) -> Result<Out, AllocError>
        ensures { IfOk result (λ out. out ≡ saying_with text.items list.items) }
    {
        let mut lists = Vec::new(alloc);
        lists.push(Line::of_text(list)?)?;
        Ok(Out {
            reply: Reply::Made(Line::of_text(text)?),
            lists: Some(lists),
            goes_on: true,
            shuts: false,
            unset: None,
        })
    }

    /// Lists alone, and then the session goes on.
    pub fn of_lists(lists: Vec<Line>) -> Out
        ensures { result ≡ tells_lists lists.items }
    {
        Out {
            reply: Reply::None,
            lists: Some(lists),
            goes_on: true,
            shuts: false,
            unset: None,
        }
    }

    /// The version alone.
    #[tactic(auto, using(crate::proofs::Newlines::kept_line, wq_ask::proofs::Constants::version_alone))]
    pub fn version() -> Out
        ensures { result ≡ replies version_data }
    {
        Out {
            reply: Reply::Fixed(VERSION_ALONE),
            lists: None,
            goes_on: true,
            shuts: false,
            unset: None,
        }
    }

    /// The reply that the server ends.
    #[tactic(auto, using(crate::proofs::Newlines::kept_line, wq_ask::proofs::Constants::shuts_down))]
    pub fn shutdown() -> Out
        ensures { result ≡ shuts_with shutdown_data }
    {
        Out {
            reply: Reply::Fixed(SHUTS_DOWN),
            lists: None,
            goes_on: false,
            shuts: true,
            unset: None,
        }
    }

    /// No reply, and whether the session goes on.
    pub fn silence(goes_on: bool) -> Out
        ensures { result ≡ silence goes_on }
    {
        Out {
            reply: Reply::None,
            lists: None,
            goes_on,
            shuts: false,
            unset: None,
        }
    }

    /// The client has gone: nothing is written, and the session ends; with the cursor that was moved for the reply.
    pub fn gone(cursor: Option<Cursor>) -> Out
        ensures { result ≡ gone cursor }
    {
        Out {
            reply: Reply::None,
            lists: None,
            goes_on: false,
            shuts: false,
            unset: cursor,
        }
    }

    /// Memory ran out, with the cursor that was moved for the reply.
    #[tactic(auto, using(crate::proofs::Newlines::kept_line, wq_ask::proofs::Constants::ran_out))]
    pub fn runs_out(cursor: Option<Cursor>) -> Out
        ensures { result ≡ runs_out cursor }
    {
        Out {
            reply: Reply::Fixed(NO_MEMORY),
            lists: None,
            goes_on: true,
            shuts: false,
            unset: cursor,
        }
    }

    /// The reply that refuses a line; or, if memory does not suffice for the reply, that memory ran out.
    #[tactic(auto, using(crate::proofs::FixedOutputs::goes_on, crate::proofs::Newlines::kept_text, crate::proofs::Newlines::kept_line))]
    pub fn refused(alloc: Global, refusal: Refusal) -> Out
        ensures { MayRefuse refusal result }
    {
        match refusal.fixed_line() {
            Some(line) => Out {
                reply: Reply::Fixed(line),
                lists: None,
                goes_on: !refusal.ends_session(),
                shuts: false,
                unset: None,
            },
            None => match error(alloc, refusal) {
                Ok(out) => out,
                Err(_) => Out::runs_out(None),
            },
        }
    }
}

/// The reply that refuses a line, if its text is made.
fn error(alloc: Global, refusal: Refusal) -> Result<Out, AllocError>
    ensures { IfOk result (λ out. out ≡ replies (error_data refusal)) }
{
    let reply = error_reply(alloc, refusal)?;
    print(alloc, &reply)
}

/// A reply without floats, and then the session goes on.
pub(crate) fn print(alloc: Global, reply: &Value) -> Result<Out, AllocError>
    ensures { has_float (data_of reply.now) ≡ false
        → IfOk result (λ out. out ≡ replies (data_of reply.now)) }
{
    Out::of_text(reply.to_vec(alloc)?)
}
