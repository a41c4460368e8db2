//! The text of the reply to a query.
ghost use Rattle.std.specs.Prelude.{◌≡◌, IfErr, IfOk};
ghost use Rattle.serde_json.specs.Written.{compact_text};
ghost use Rattle.wq_clock.specs.Instance.{instance_data};
ghost use Rattle.wq_reply.specs.Answer.{text_in};
ghost use Rattle.wq_reply.specs.Plan.{planned};
ghost use Rattle.wq_reply.specs.Listing.{AreWithin, files_of};
ghost use Rattle.wq_view.specs.Position.{records_at};
ghost use Rattle.wq_reply.specs.Reply.{reply_of};
ghost use Rattle.wq_reply.specs.Search.{MayEnd};

use crate::crew::Crew;
use crate::form::Form;
use crate::listing::listed;
use crate::long::LongReply;
use crate::plan::Plan;
use crate::printer::print_reply;
use crate::room::{room_of, with_room};
use json::Writer;
use std::alloc::{AllocError, Global};
use wq_base::Unanswered;
use wq_clock::Instance;
use wq_view::View;

/// The text of a reply: made whole, or of a long list, and then it is printed while it is sent.
#[derive(Drop)]
pub enum ReplyText {
    /// The whole text.
    Whole(Vec<u8>),
    /// A reply with a long list.
    Long(LongReply),
}

/// The text of the reply: compact JSON, with its keys in byte order and without a newline. A crew finds its files, and
/// says whether their list is long.
pub fn answer_text<C: Crew>(
    crew: &C,
    alloc: Global,
    plan: &Plan,
    instance: &Instance,
    view: &View,
) -> Result<ReplyText, Unanswered>
    ensures text { IfOk result (λ text. text_in text
        ≡ compact_text (reply_of (planned plan.now) (instance_data instance.now) view.now)) }
    ensures ends { IfErr result (MayEnd C.may_go) }
{
    let places = listed(crew, alloc, plan, view, None)?;
    if places.is_empty() || !crew.prints_later(places.len()) {
        return Ok(ReplyText::Whole(text_of(alloc, plan, instance, view, &places)?));
    }
    Ok(ReplyText::Long(LongReply::new(alloc, plan, instance, view, places)?))
}

/// The text of the reply that lists the files at these places.
pub(crate) fn text_of(
    alloc: Global,
    plan: &Plan,
    instance: &Instance,
    view: &View,
    places: &[u32],
) -> Result<Vec<u8>, AllocError>
    requires within { AreWithin view.now.records places.now }
    requires files { records_at view.now.records places.now
        ≡ files_of (planned plan.now) view.now.records }
    ensures { IfOk result (λ text. text.items
        ≡ compact_text (reply_of (planned plan.now) (instance_data instance.now) view.now)) }
{
    let form = Form::of(alloc, &plan.fields)?;
    let room = room_of(instance, view, places, &form);
    let mut out = Writer::new(with_room(alloc, room));
    print_reply(&mut out, plan, instance, view, places, &form)?;
    let text = out.into_inner();
    Ok(text)
}
