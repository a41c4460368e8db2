//! The subscriptions of a session: the beginning and the end of each.
ghost use Rattle.std.specs.Prelude.{◌≡◌, IfOk, OnErr, OnOk, Option, Some, false, map, position};
ghost use Rattle.wq_clock.specs.Instance.{instance_data};
ghost use Rattle.wq_follow.specs.Followed.{subscription_data};
ghost use Rattle.wq_session.specs.Out.{replies};
ghost use Rattle.wq_ask.specs.Subscribe.{unsubscribe_data};
ghost use Rattle.wq_session.specs.Answer.{Finishes, giving, subscribing_at};
ghost use Rattle.wq_crawl.specs.At.{AtData};
ghost use Rattle.wq_session.specs.Followed.{follows_of, has_called, has_no_room, is_called};
ghost use Rattle.wq_session.specs.Followed.{with_subscription, without_called};
ghost use Rattle.wq_session.specs.Work.{begins, drops};

use crate::outcome::{Out, print};
use crate::session::Session;
use std::alloc::{AllocError, Global};
use wq_ask::{Refusal, subscribe_reply, unsubscribe_reply};
use wq_base::Text;
use wq_clock::Instance;
use wq_follow::Subscription;
use wq_view::View;

/// The most subscriptions that a session may have.
pub const MAX_SUBSCRIPTIONS: usize = 64;

impl Session {
    /// Begins a subscription at a view of its root, unless there is no room for it.
    pub(crate) fn begin(
        &mut self,
        alloc: Global,
        subscription: Subscription,
        instance: &Instance,
        view: &View,
    ) -> Out
        ensures { Finishes false (begins (subscription_data subscription))
            (Some (record { instance = instance_data instance.now; view = Some view.now }))
            (follows_of self.old) result (follows_of self.new) }
    {
        if self.has_no_room(&subscription) {
            return Out::refused(alloc, Refusal::TooManySubscriptions);
        }
        match self.begun(alloc, subscription, instance, view) {
            Ok(out) => out,
            Err(_) => Out::runs_out(None),
        }
    }

    /// Begins a subscription, for which there is room. The session keeps it when all its output is made.
    fn begun(
        &mut self,
        alloc: Global,
        subscription: Subscription,
        instance: &Instance,
        view: &View,
    ) -> Result<Out, AllocError>
        ensures begun { IfOk result (λ out. subscribing_at (subscription_data subscription)
            (instance_data instance.now) view.now (follows_of self.old)
            ≡ giving out (follows_of self.new)) }
        ensures stays { OnErr result (follows_of self.new ≡ follows_of self.old) }
    {
        let mut subscription = subscription;
        let clock = wq_clock::print(instance, view.tick());
        let reply = subscribe_reply(alloc, &clock, subscription.name())?;
        let text = reply.to_vec(alloc)?;
        let list = subscription.first_list(alloc, instance, view)?;
        let out = Out::with_list(alloc, text, list)?;
        keep(&mut self.subscriptions, subscription)?;
        Ok(out)
    }

    /// Whether there is no room for a subscription.
    fn has_no_room(&self, subscription: &Subscription) -> bool
        ensures { result ≡ has_no_room (subscription_data subscription.now).number
            (subscription_data subscription.now).name (follows_of self.now) }
    {
        if has_called(
            &self.subscriptions,
            subscription.number(),
            subscription.name(),
        ) {
            return false;
        }
        self.subscriptions.len() >= MAX_SUBSCRIPTIONS
    }

    /// Ends the subscription of the root of this number and of this name.
    pub(crate) fn drop_called(&mut self, alloc: Global, number: u64, name: &Text) -> Out
        ensures { (at : Option AtData)
            → Finishes false (drops number name.now) at (follows_of self.old) result
            (follows_of self.new) }
    {
        let name = name.as_str();
        let there = has_called(&self.subscriptions, number, name);
        let Ok(out) = dropped(alloc, name, there) else {
            return Out::runs_out(None);
        };
        drop_called(&mut self.subscriptions, number, name);
        out
    }
}

/// Keeps a subscription: in the place of the one with the same root and name, or at the end.
fn keep(subscriptions: &mut Vec<Subscription>, subscription: Subscription) -> Result<(), AllocError>
    ensures kept { OnOk result (map subscription_data subscriptions.new.items
        ≡ with_subscription (subscription_data subscription)
        (map subscription_data subscriptions.old.items)) }
    ensures stays { OnErr result (map subscription_data subscriptions.new.items
        ≡ map subscription_data subscriptions.old.items) }
{
    match place_of(subscriptions, subscription.number(), subscription.name()) {
        Some(place) => subscriptions[place] = subscription,
        None => subscriptions.push(subscription)?,
    }
    Ok(())
}

/// Takes out the subscription of the root of this number and of this name.
fn drop_called(subscriptions: &mut Vec<Subscription>, number: u64, name: &str)
    ensures { map subscription_data subscriptions.new.items
        ≡ without_called number name.now (map subscription_data subscriptions.old.items) }
{
    subscriptions.retain(|s| !is_called(number, name, s));
}

/// The place of the subscription of the root of this number and of this name.
fn place_of(subscriptions: &[Subscription], number: u64, name: &str) -> Option<usize>
    ensures { result ≡ position (λ s. is_called number name.now (subscription_data s))
        subscriptions.now }
{
    subscriptions
        .iter()
        .position(|s| is_called(number, name, s))
}

/// Whether there is a subscription of the root of this number and of this name.
fn has_called(subscriptions: &[Subscription], number: u64, name: &str) -> bool
    ensures { result ≡ has_called number name.now (map subscription_data subscriptions.now) }
{
    place_of(subscriptions, number, name).is_some()
}

/// Whether a subscription is of the root of this number and of this name.
fn is_called(number: u64, name: &str, subscription: &Subscription) -> bool
    ensures { result ≡ is_called number name.now (subscription_data subscription.now) }
{
    number == subscription.number() && name == subscription.name()
}

/// The reply that the subscription has ended, and whether there was one.
fn dropped(alloc: Global, name: &str, deleted: bool) -> Result<Out, AllocError>
    ensures { IfOk result (λ out. out ≡ replies (unsubscribe_data name.now deleted)) }
{
    let reply = unsubscribe_reply(alloc, name, deleted)?;
    print(alloc, &reply)
}
