//! The steps of an answer at a shelf that the caller has alone: it is taken there, finished without the shelf, and
//! settled. A server and a script go through a desk, which does the same steps.
ghost use Rattle.std.specs.Prelude.{◌≡◌, IfErr, IfOk, Some, false, option_map};
ghost use Rattle.serde_json.specs.Written.{compact_text};
ghost use Rattle.wq_base.specs.Limit.{AreFew};
ghost use Rattle.wq_clock.specs.Instance.{instance_data};
ghost use Rattle.wq_crawl.specs.At.{at_data};
ghost use Rattle.wq_reply.specs.Answer.{text_in};
ghost use Rattle.wq_reply.specs.Plan.{planned};
ghost use Rattle.wq_reply.specs.Reply.{reply_of};
ghost use Rattle.wq_reply.specs.Search.{MayEnd};
ghost use Rattle.wq_session.specs.Answer.{AnswersAsk, CanFinish, Finishes, TakesAsk};
ghost use Rattle.wq_session.specs.Followed.{follows_of};
ghost use Rattle.wq_session.specs.Out.{settled};
ghost use Rattle.wq_session.specs.Shelved.{shelf_data};
ghost use Rattle.wq_session.specs.Work.{evaluates, rest_data, work_data};

use crate::cursor::Cursor;
use crate::outcome::Out;
use crate::session::{Session, prepare_at};
use crate::work::{Rest, Work};
use std::alloc::Global;
use std::thread::Threads;
use wq_ask::Ask;
use wq_base::Unanswered;
use wq_clock::Instance;
use wq_crawl::At;
use wq_eval::Gate;
use wq_follow::Trigger;
use wq_registry::Shelf;
use wq_reply::{Alone, Plan, ReplyText, answer_workers};
use wq_view::View;

impl Session {
    /// The whole answer to an ask, at a root or at none, at a shelf that the caller has alone:
    /// [`take`](Session::take), [`finish`](Work::finish), [`settle`](Session::settle), and the unsetting of the cursor
    /// that it names.
    pub fn on(&mut self, ask: Ask, at: Option<At<'_>>, shelf: &mut Shelf<Trigger>) -> Out
        ensures { AnswersAsk false ask (option_map at_data at.entry) (shelf_data shelf.old)
            (follows_of self.old) result (shelf_data shelf.new) (follows_of self.new) }
    {
        self.answer_at(&Alone {}, ask, at, shelf)
    }

    /// The part of an answer that needs the shelf. It lists no files. The program of a query is found in the shelf's
    /// cache, or compiled and kept there.
    ///
    /// If memory runs out, the answer says so, and the shelf is as before.
    pub fn take(&mut self, ask: Ask, at: Option<At<'_>>, shelf: &mut Shelf<Trigger>) -> Work
        ensures taken { TakesAsk ask (option_map at_data at.entry) (shelf_data shelf.old)
            (work_data result) (shelf_data shelf.new) }
        ensures same { follows_of self.new ≡ follows_of self.old }
    {
        let prepared = prepare_at(self.alloc, ask, at, shelf);
        prepared.take(shelf)
    }

    /// The cursor to unset on the shelf, which the output no longer names then: the one that was moved for a reply, if
    /// memory ran out for that reply. It takes no memory.
    pub fn settle(&mut self, out: &mut Out) -> Option<Cursor>
        ensures named { result ≡ out.old.unset }
        ensures taken { out.new ≡ settled out.old }
        ensures same { follows_of self.new ≡ follows_of self.old }
    {
        out.settle()
    }

    /// The end of the rest of the work, for which so many threads find the files.
    fn finish_rest_workers<R: Threads, G: Gate + Sync>(
        &mut self,
        rt: &R,
        gate: &G,
        workers: u32,
        rest: Rest,
        at: Option<At<'_>>,
    ) -> Out
        requires workers { AreFew workers }
        requires view { CanFinish (rest_data rest) (option_map at_data at) }
        ensures { Finishes false (rest_data rest) (option_map at_data at.entry) (follows_of self.old)
            result (follows_of self.new) }
    {
        match rest {
            Rest::Evaluates(plan, cursor) => match at {
                Some(
                    At {
                        instance,
                        view: Some(view),
                    },
                ) => self.list_workers(rt, gate, workers, &plan, cursor, &instance, view),
                _ => unreachable!(),
            },
            rest => self.finish_rest(&Alone {}, rest, at),
        }
    }

    /// The listing of the files of a plan, of a root with this view, which so many threads find. The subscriptions stay.
    fn list_workers<R: Threads, G: Gate + Sync>(
        &self,
        rt: &R,
        gate: &G,
        workers: u32,
        plan: &Plan,
        cursor: Option<Cursor>,
        instance: &Instance,
        view: &View,
    ) -> Out
        requires { AreFew workers }
        ensures { Finishes false (evaluates (planned plan.now) cursor)
            (Some (record { instance = instance_data instance.now; view = Some view.now }))
            (follows_of self.now) result (follows_of self.now) }
    {
        let text = text_workers(rt, self.alloc, gate, workers, plan, instance, view);
        Out::of_answer(text, cursor)
    }
}

impl Work {
    /// The part of an answer that does not need the shelf ([`Session::finish`]): this thread lists the files. The root is
    /// the one that the ask was taken at.
    ///
    /// If memory runs out, the output says so, and the subscriptions of the session stay.
    pub fn finish(self, session: &mut Session, at: Option<At<'_>>) -> Out
        requires { CanFinish (work_data self) (option_map at_data at) }
        ensures { Finishes false (work_data self) (option_map at_data at.entry)
            (follows_of session.old) result (follows_of session.new) }
    {
        session.finish(&Alone {}, self, at)
    }

    /// The same, but so many threads find the files that are to be listed, however few there are. Each calls the gate as
    /// it begins a piece of the candidates.
    pub fn finish_workers<R: Threads, G: Gate + Sync>(
        self,
        rt: &R,
        session: &mut Session,
        gate: &G,
        workers: u32,
        at: Option<At<'_>>,
    ) -> Out
        requires workers { AreFew workers }
        requires view { CanFinish (work_data self) (option_map at_data at) }
        ensures { Finishes false (work_data self) (option_map at_data at.entry)
            (follows_of session.old) result (follows_of session.new) }
    {
        session.finish_rest_workers(rt, gate, workers, self.into_rest(), at)
    }
}

/// The text of the reply, whose files so many threads find.
fn text_workers<R: Threads, G: Gate + Sync>(
    rt: &R,
    alloc: Global,
    gate: &G,
    workers: u32,
    plan: &Plan,
    instance: &Instance,
    view: &View,
) -> Result<ReplyText, Unanswered>
    requires { AreFew workers }
    ensures text { IfOk result (λ text. text_in text
        ≡ compact_text (reply_of (planned plan.now) (instance_data instance.now) view.now)) }
    ensures ends { IfErr result (MayEnd false) }
{
    let reply = answer_workers(rt, alloc, gate, workers, plan, instance, view)?;
    Ok(ReplyText::Whole(reply.to_vec(alloc)?))
}
