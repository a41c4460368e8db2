//! Idle moments: the server tells the subscriptions of a root the changes since their last lists.
ghost use Rattle.std.specs.Prelude.{◌≡◌, ◌++◌, ◌∷◌, ◌<◌, List, OnErr, OnOk, false, length, map, option_map};
ghost use Rattle.wq_clock.specs.Instance.{instance_data};
ghost use Rattle.wq_follow.specs.Batch.{is_told};
ghost use Rattle.wq_follow.specs.Followed.{subscription_data};
ghost use Rattle.wq_follow.specs.Subscription.{SubscriptionData, caught_up, next_list};
ghost use Rattle.wq_crawl.specs.At.{at_data};
ghost use Rattle.wq_session.specs.Followed.{follows_of};
ghost use Rattle.wq_session.specs.Moment.{Idles, TellsOne, listed_once, shown_data, shown_in};

use crate::line::Line;
use crate::outcome::Out;
use crate::session::Session;
use std::alloc::{AllocError, Global};
use wq_clock::Instance;
use wq_crawl::At;
use wq_follow::Subscription;
use wq_view::View;

impl Session {
    /// An idle moment of the root of this number, which is looked at, or no longer watched. Each subscription of it is
    /// told the changes since its last list, or that it ends.
    ///
    /// If memory runs out for one, that one and all after it have not moved, and are told at a later moment.
    pub fn idle(&mut self, root: u64, at: Option<At<'_>>) -> Out
        ensures { Idles root (option_map at_data at.entry) (follows_of self.old) result
            (follows_of self.new) }
    {
        let alloc = self.alloc;
        let shown = shown_in(at);
        let mut lists = Vec::new(alloc);
        let mut place = 0;
        for _ in 0..self.subscriptions.len() {
            match tell_one(
                alloc,
                &mut self.subscriptions,
                place,
                root,
                shown,
                &mut lists,
            ) {
                Ok(next) => place = next,
                Err(_) => break,
            }
        }
        Out::of_lists(lists)
    }
}

/// The root that is looked at, if it is watched.
fn shown_in(at: Option<At<'_>>) -> Option<(Instance, &View)>
    ensures { shown_data result ≡ shown_in (option_map at_data at.entry) }
{
    let at = at?;
    let view = at.view?;
    Some((at.instance, view))
}

/// Tells the subscription at a place, if it is one of the root, and gives the place of the next one.
fn tell_one(
    alloc: Global,
    subscriptions: &mut Vec<Subscription>,
    place: usize,
    root: u64,
    shown: Option<(Instance, &View)>,
    lists: &mut Vec<Line>,
) -> Result<usize, AllocError>
    requires { place < length subscriptions.old.items }
    ensures { (front : List SubscriptionData) (s : SubscriptionData) (later : List SubscriptionData)
        → map subscription_data subscriptions.old.items ≡ front ++ s ∷ later
        → length front ≡ place
        → TellsOne root (shown_data shown.entry) front s later lists.old.items result
        (map subscription_data subscriptions.new.items) lists.new.items }
{
    if subscriptions[place].number() != root {
        return Ok(place + 1);
    }
    match shown {
        Some((instance, view)) => {
            tell(alloc, &mut subscriptions[place], &instance, view, lists)?;
            Ok(place + 1)
        }
        None => {
            let end = subscriptions[place].canceled(alloc)?;
            lists.push(Line::of_text(end)?)?;
            subscriptions.remove(place);
            Ok(place)
        }
    }
}

/// Puts the list of a subscription at a view to the others, if files changed. It moves when its list is made.
fn tell(
    alloc: Global,
    subscription: &mut Subscription,
    instance: &Instance,
    view: &View,
    lists: &mut Vec<Line>,
) -> Result<(), AllocError>
    ensures moved { OnOk result (subscription_data subscription.new
        ≡ caught_up view.now (subscription_data subscription.old)) }
    ensures told { OnOk result (lists.new.items ≡ lists.old.items
        ++ listed_once (next_list (instance_data instance.now) view.now
        (subscription_data subscription.old))) }
    ensures stays { OnErr result (subscription_data subscription.new
        ≡ subscription_data subscription.old) }
    ensures untold { OnErr result (lists.new.items ≡ lists.old.items) }
    ensures wants { OnErr result (
        is_told ((subscription_data subscription.old).follower).last view.now.tick ≡ false) }
{
    let batch = subscription.poll(view)?;
    if !batch.files.is_empty() {
        let list = subscription.list(alloc, instance, view, &batch)?;
        lists.push(Line::of_text(list)?)?;
    }
    subscription.commit(&batch);
    Ok(())
}
