//! Subscriptions: their lists, and the line that ends each.
ghost use Rattle.std.specs.Prelude.{◌≡◌, ◌≤◌, IfErr, IfOk, OnErr, OnOk, false};
ghost use Rattle.serde_json.specs.View.{view as data_of};
ghost use Rattle.serde_json.specs.Written.{compact_text, has_float};
ghost use Rattle.wq_base.specs.Limit.{max_number};
ghost use Rattle.wq_clock.specs.Instance.{instance_data};
ghost use Rattle.wq_reply.specs.Following.{list_data};
ghost use Rattle.wq_reply.specs.Listing.{AreWithin};
ghost use Rattle.wq_reply.specs.Plan.{planned};
ghost use Rattle.wq_view.specs.Position.{records_at};
ghost use Rattle.wq_follow.specs.Batch.{is_told, polled};
ghost use Rattle.wq_follow.specs.Followed.{subscription_data};
ghost use Rattle.wq_follow.specs.Follower.{IsBatch};
ghost use Rattle.wq_follow.specs.Subscription.{canceled_data, caught_up, list_of};
ghost use Rattle.wq_follow.specs.Subscription.{sent_up_to, subscribed};

use crate::batch::Batch;
use crate::follower::Follower;
use serde_json::{Value, json};
use std::alloc::{AllocError, Global};
use wq_base::{Text, VERSION};
use wq_clock::Instance;
use wq_reply::{Plan, print_list};
use wq_view::View;

/// The changes of a root that a client wants to be told, list by list.
pub struct Subscription {
    pub(crate) name: Text,
    /// The text of its root.
    pub(crate) root: Text,
    /// The number of its root.
    pub(crate) number: u64,
    pub(crate) follower: Follower,
}

// A subscription is let go by one call, wherever a function gives up.
impl Drop for Subscription {
    fn drop(self) {
        let Subscription {
            name: _,
            root: _,
            number: _,
            follower: _,
        } = self;
    }
}

impl Subscription {
    /// A subscription of a root with this text and number, under a name. It was told nothing yet.
    pub fn new(name: Text, root: Text, number: u64, plan: Plan) -> Subscription
        ensures { subscription_data result ≡ subscribed name root number (planned plan) }
    {
        Subscription {
            name,
            root,
            number,
            follower: Follower::new(plan),
        }
    }

    /// The name.
    pub fn name(&self) -> &str
        ensures { result.now ≡ (subscription_data self.now).name }
    {
        self.name.as_str()
    }

    /// The text of its root.
    pub fn root(&self) -> &str
        ensures { result.now ≡ (subscription_data self.now).root }
    {
        self.root.as_str()
    }

    /// The number of its root.
    pub fn number(&self) -> u64
        ensures { result ≡ (subscription_data self.now).number }
    {
        self.number
    }

    /// The next batch, at a view of the root. The subscription does not move: see
    /// [`commit`](Subscription::commit).
    ///
    /// At a view that is no newer than the last batch it takes no memory, and no time that grows
    /// with the view.
    pub fn poll(&self, view: &View) -> Result<Batch, AllocError>
        ensures batch { IfOk result (IsBatch view.now.records
            (polled (subscription_data self.now).follower view.now)) }
        ensures tick { IfOk result (λ batch. batch.now ≤ max_number) }
        ensures wants { IfErr result (λ _.
            is_told ((subscription_data self.now).follower).last view.now.tick ≡ false) }
    {
        self.follower.poll(view, None)
    }

    /// The batch was sent: the next one begins at its end. It takes no memory.
    pub fn commit(&mut self, batch: &Batch)
        requires { batch.now.now ≤ max_number }
        ensures { subscription_data self.new
            ≡ sent_up_to batch.entry.now.now (subscription_data self.old) }
    {
        self.follower.commit(batch);
    }

    /// The list of the files of a batch of this view, as a line without its end.
    pub fn list(
        &self,
        alloc: Global,
        instance: &Instance,
        view: &View,
        batch: &Batch,
    ) -> Result<Vec<u8>, AllocError>
        requires { AreWithin view.now.records batch.now.files.items }
        ensures { IfOk result (λ text. text.items ≡ compact_text (list_data
            (subscription_data self.now).root (subscription_data self.now).name
            ((subscription_data self.now).follower).plan (instance_data instance.now)
            view.now.tick (records_at view.now.records batch.entry.now.files.items))) }
    {
        let plan = self.follower.plan();
        let files = batch.files.as_slice();
        print_list(
            alloc,
            plan,
            instance,
            view,
            files,
            self.root.as_str(),
            self.name.as_str(),
        )
    }

    /// The list at a view of the root, which a client is sent even if it has no files. After it the
    /// subscription is caught up with the view; without memory it has not moved.
    pub fn first_list(
        &mut self,
        alloc: Global,
        instance: &Instance,
        view: &View,
    ) -> Result<Vec<u8>, AllocError>
        ensures list { IfOk result (λ text. text.items ≡ compact_text
            (list_of (instance_data instance.now) view.now (subscription_data self.old))) }
        ensures moved { OnOk result (subscription_data self.new
            ≡ caught_up view.now (subscription_data self.old)) }
        ensures stays { OnErr result (subscription_data self.new ≡ subscription_data self.old) }
    {
        let batch = self.poll(view)?;
        let text = self.list(alloc, instance, view, &batch)?;
        self.commit(&batch);
        Ok(text)
    }

    /// The line that ends the subscription, without its end: its root is no longer watched.
    pub fn canceled(&self, alloc: Global) -> Result<Vec<u8>, AllocError>
        ensures { IfOk result (λ text. text.items ≡ compact_text (canceled_data
            (subscription_data self.now).root (subscription_data self.now).name)) }
    {
        let end = canceled(alloc, self.root.as_str(), self.name.as_str())?;
        end.to_vec(alloc)
    }
}

/// The end of a subscription of this root and name.
fn canceled(alloc: Global, root: &str, name: &str) -> Result<Value, AllocError>
    ensures data { IfOk result (λ end. data_of end ≡ canceled_data root.now name.now) }
    ensures floats { has_float (canceled_data root.now name.now) ≡ false }
{
    json!(in alloc; {
        "canceled": true,
        "root": root,
        "subscription": name,
        "unilateral": true,
        "version": VERSION
    })
}
