//! A follower of a root, and its batches.
ghost use Rattle.std.specs.Prelude.{◌≤◌, IfSome};
ghost use Rattle.std.proofs.Props.{props};
ghost use Rattle.wq_base.specs.Limit.{max_number};

use crate::batch::Batch;
use std::alloc::{AllocError, Global};
use wq_reply::{Ahead, Plan};
use wq_view::View;

/// A plan that is used again and again, each time from the tick up to which it told changes.
#[derive(Drop)]
pub struct Follower {
    pub(crate) plan: Plan,
    pub(crate) last: Option<u64>,
    ghost reached: { IfSome last (λ tick. tick ≤ max_number) } by { Prim.hlevel props },
}

impl Follower {
    ghost use Rattle.std.specs.Prelude.{◌≡◌, IfErr, IfOk, IfSome, List, false};
    ghost use Rattle.wq_record.specs.RecordData.{RecordData};
    ghost use Rattle.wq_reply.specs.Ahead.{IsAheadAt};
    ghost use Rattle.wq_reply.specs.Plan.{planned};
    ghost use Rattle.wq_follow.specs.Batch.{untold, is_told, last_or, listing, nothing, polled};
    ghost use Rattle.wq_follow.specs.Batch.{told_up_to};
    ghost use Rattle.wq_follow.specs.Followed.{follower_data};
    ghost use Rattle.wq_follow.specs.Follower.{IsBatch};

    /// A follower that was told nothing yet. Its first batch is the list of the plan.
    pub fn new(plan: Plan) -> Follower
        ensures { follower_data result ≡ untold (planned plan) }
    {
        Follower { plan, last: None }
    }

    /// The plan.
    pub fn plan(&self) -> &Plan
        ensures { planned result.now ≡ (follower_data self.now).plan }
    {
        &self.plan
    }

    /// The next batch, at a view. The follower does not move: see [`commit`](Follower::commit).
    ///
    /// At a view that is no newer than the last batch it takes no memory, and no time that grows
    /// with the view. What was found ahead is taken if it is of the plan's program and candidates.
    pub fn poll(&self, view: &View, ahead: Option<&Ahead>) -> Result<Batch, AllocError>
        requires { IfSome ahead (λ ahead. IsAheadAt view.now.records ahead.now) }
        ensures batch { IfOk result (IsBatch view.now.records
            (polled (follower_data self.now) view.now)) }
        ensures tick { IfOk result (λ batch. batch.now ≤ max_number) }
        ensures from { IfOk result (λ batch. batch.from ≡ ((follower_data self.now).plan).bound) }
        ensures wants { IfErr result (λ _.
            is_told (follower_data self.now).last view.now.tick ≡ false) }
    {
        let tick = view.tick();
        if self.is_told(tick) {
            return Ok(self.nothing(view.allocator(), tick));
        }
        self.listing(view, ahead)
    }

    /// The batch was told: the next one begins at its end. It takes no memory.
    pub fn commit(&mut self, batch: &Batch)
        requires { batch.now.now ≤ max_number }
        ensures { follower_data self.new ≡ told_up_to batch.entry.now.now (follower_data self.old) }
    {
        self.plan.tell_from(batch.now);
        self.last = Some(batch.now);
    }

    /// Whether the last batch ended at this tick or a later one.
    pub(crate) fn is_told(&self, tick: u64) -> bool
        ensures { result ≡ is_told (follower_data self.now).last tick }
    {
        match self.last {
            Some(last) => tick <= last,
            None => false,
        }
    }

    /// The batch without files that ends at the tick of the last one.
    fn nothing(&self, alloc: Global, tick: u64) -> Batch
        requires { tick ≤ max_number }
        ensures batch { (records : List RecordData) → IsBatch records
            (nothing (follower_data self.now).plan (last_or tick (follower_data self.now).last))
            result }
        ensures tick { result.now ≤ max_number }
        ensures from { result.from ≡ ((follower_data self.now).plan).bound }
    {
        Batch {
            fresh: self.plan.bound().is_fresh(),
            from: self.plan.bound(),
            now: self.last_or(tick),
            files: Vec::new(alloc),
        }
    }

    /// The tick of the last batch; this one if there was none.
    fn last_or(&self, tick: u64) -> u64
        requires { tick ≤ max_number }
        ensures value { result ≡ last_or tick (follower_data self.now).last }
        ensures bound { result ≤ max_number }
    {
        match self.last {
            Some(last) => last,
            None => tick,
        }
    }

    /// The batch of the plan's list.
    fn listing(&self, view: &View, ahead: Option<&Ahead>) -> Result<Batch, AllocError>
        requires { IfSome ahead (λ ahead. IsAheadAt view.now.records ahead.now) }
        ensures batch { IfOk result (IsBatch view.now.records
            (listing (follower_data self.now).plan view.now)) }
        ensures tick { IfOk result (λ batch. batch.now ≤ max_number) }
        ensures from { IfOk result (λ batch. batch.from ≡ ((follower_data self.now).plan).bound) }
    {
        Ok(Batch {
            fresh: self.plan.bound().is_fresh(),
            from: self.plan.bound(),
            now: view.tick(),
            files: self.plan.files_ahead(view.allocator(), view, ahead)?,
        })
    }
}
