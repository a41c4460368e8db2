//! A session's answer to an ask. It prepares the ask, takes it at the shelf of a desk, finishes it
//! with the view and its own state alone, and unsets a cursor if memory ran out then.
ghost use Rattle.std.specs.Prelude.{◌≡◌, [], Some, map, option_map};
ghost use Rattle.wq_clock.specs.Instance.{instance_data};
ghost use Rattle.wq_reply.specs.Plan.{planned};
ghost use Rattle.wq_follow.specs.Followed.{subscription_data};
ghost use Rattle.wq_session.specs.Need.{need_of};
ghost use Rattle.wq_session.specs.Answer.{CanFinish, Finishes};
ghost use Rattle.wq_crawl.specs.At.{at_data};
ghost use Rattle.wq_session.specs.Desk.{AnswersShelf, Replies, stand};
ghost use Rattle.wq_session.specs.Followed.{follows_of};
ghost use Rattle.wq_session.specs.Prepared.{IsPrepared, asked, asked_at};
ghost use Rattle.wq_crawl.specs.Views.{ReadyData};
ghost use Rattle.wq_session.specs.Work.{evaluates, rest_data, work_data};

use crate::at::at_of;
use crate::command::{listed, listed_triggers};
use crate::crawl::crawl_refusal;
use crate::cursor::Cursor;
use crate::desk::Desk;
use crate::need::need_of;
use crate::outcome::Out;
use crate::prepared::Prepared;
use crate::reply::printed;
use crate::work::{Rest, Work};
use std::alloc::Global;
use wq_ask::Ask;
use wq_clock::Instance;
use wq_crawl::{At, Views};
use wq_follow::Subscription;
use wq_reply::{Crew, Plan};
use wq_view::View;

/// A server's record of one client: its subscriptions. An ask of a session depends on nothing else that came before.
#[derive(Drop)]
pub struct Session {
    pub(crate) subscriptions: Vec<Subscription>,
    pub(crate) alloc: Global,
}

impl Session {
    /// The session of a client that has sent nothing yet. It takes no memory.
    pub fn new(alloc: Global) -> Session
        ensures { follows_of result ≡ [] }
    {
        Session {
            subscriptions: Vec::new(alloc),
            alloc,
        }
    }

    /// The subscriptions, in the order in which they began.
    pub fn subscriptions(&self) -> &[Subscription]
        ensures { map subscription_data result.now ≡ follows_of self.now }
    {
        self.subscriptions.as_slice()
    }

    /// The part of an answer that does not hold the shelf: a crew lists the files and makes the text. The session keeps a
    /// subscription once its first list is made, or ends it. The root is the one that the ask was
    /// [prepared](Prepared::of) at.
    ///
    /// If memory runs out, the output says so, and the subscriptions stay. They also stay if the client has gone, and
    /// then the output says nothing, and that the session ends.
    pub fn finish<C: Crew>(&mut self, crew: &C, work: Work, at: Option<At<'_>>) -> Out
        requires { CanFinish (work_data work) (option_map at_data at) }
        ensures { Finishes C.may_go (work_data work) (option_map at_data at.entry)
            (follows_of self.old) result (follows_of self.new) }
    {
        self.finish_rest(crew, work.into_rest(), at)
    }

    /// The same, of the rest of the work.
    pub(crate) fn finish_rest<C: Crew>(&mut self, crew: &C, rest: Rest, at: Option<At<'_>>) -> Out
        requires { CanFinish (rest_data rest) (option_map at_data at) }
        ensures { Finishes C.may_go (rest_data rest) (option_map at_data at.entry)
            (follows_of self.old) result (follows_of self.new) }
    {
        let alloc = self.alloc;
        match rest {
            Rest::Says(mut out) => {
                let _ = out.settle();
                out
            }
            Rest::Prints(reply) => printed(alloc, &reply),
            Rest::ListsTriggers(objects) => listed_triggers(alloc, objects.as_slice()),
            Rest::Evaluates(plan, cursor) => match at {
                Some(
                    At {
                        instance,
                        view: Some(view),
                    },
                ) => self.list(crew, alloc, &plan, cursor, &instance, view),
                _ => unreachable!(),
            },
            Rest::Begins(subscription) => match at {
                Some(
                    At {
                        instance,
                        view: Some(view),
                    },
                ) => self.begin(alloc, subscription, &instance, view),
                _ => unreachable!(),
            },
            Rest::Drops(root, name) => self.drop_called(alloc, root, &name),
        }
    }

    /// The listing of the files of a plan, of a root with this view, by a crew. The subscriptions stay.
    fn list<C: Crew>(
        &self,
        crew: &C,
        alloc: Global,
        plan: &Plan,
        cursor: Option<Cursor>,
        instance: &Instance,
        view: &View,
    ) -> Out
        ensures { Finishes C.may_go (evaluates (planned plan.now) cursor)
            (Some (record { instance = instance_data instance.now; view = Some view.now }))
            (follows_of self.now) result (follows_of self.now) }
    {
        listed(crew, alloc, plan, cursor, instance, view)
    }

    /// The whole answer to an ask. The views meet the need of the ask, and the ask is answered at the
    /// root that they give. If they refuse the need, the line is refused.
    pub fn answer<V: Views, C: Crew, D: Desk>(
        &mut self,
        crew: &C,
        ask: Ask,
        views: V,
        desk: &mut D,
    ) -> (V, Out)
        ensures { (ready : ReadyData) × V.readies views (need_of ask) ready result.0
            × Replies C.may_go ready ask (stand (D.shelf desk.old) (follows_of self.old)) result.1
            (stand (D.shelf desk.new) (follows_of self.new)) }
    {
        let (views, ready) = views.ready(need_of(&ask));
        match ready {
            Ok(root) => (views, self.answer_at(crew, ask, at_of(&root), desk)),
            Err(fault) => (views, Out::refused(self.alloc, crawl_refusal(fault))),
        }
    }

    /// The whole answer to an ask, at a root or at none, at the shelf of a desk:
    /// [`of`](Prepared::of), [`take`](Prepared::take), [`finish`](Session::finish),
    /// [`settle`](Out::settle), and the unsetting of the cursor that it names. The desk holds
    /// the shelf while the ask is taken, and not while it is finished.
    #[tactic(auto, using(crate::proofs::Held::held_finish))]
    pub fn answer_at<C: Crew, D: Desk>(
        &mut self,
        crew: &C,
        ask: Ask,
        at: Option<At<'_>>,
        desk: &mut D,
    ) -> Out
        ensures { AnswersShelf C.may_go (D.shelf desk.old) (follows_of self.old) ask
            (option_map at_data at.entry) result (D.shelf desk.new) (follows_of self.new) }
    {
        let prepared = prepare_at(self.alloc, ask, at, desk);
        let work = desk.hold(prepared);
        let mut out = self.finish(crew, work, at);
        if let Some(cursor) = out.settle() {
            desk.unset(cursor);
        }
        out
    }
}

/// An ask with its query read. The program of the query is found at the desk, or compiled and kept
/// there.
pub(crate) fn prepare_at<'a, D: Desk>(
    alloc: Global,
    ask: Ask,
    at: Option<At<'a>>,
    desk: &mut D,
) -> Prepared<'a>
    ensures prepared { IsPrepared result }
    ensures ask { asked result ≡ ask }
    ensures at { asked_at result ≡ option_map at_data at.entry }
    ensures same { D.shelf desk.new ≡ D.shelf desk.old }
{
    let prepared = Prepared::of(alloc, ask, at);
    let found = match prepared.key() {
        Some(key) => desk.find(key),
        None => None,
    };
    let (prepared, compiled) = prepared.compiled(found);
    if let Some(compiled) = compiled {
        let _ = desk.keep(compiled);
    }
    prepared
}
