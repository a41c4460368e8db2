//! A command that is started when files changed: its making, and its turn in a round.
ghost use Rattle.std.specs.Prelude.{◌≡◌, IfOk, IfSome};
ghost use Rattle.wq_reply.specs.Ahead.{IsAheadAt};
ghost use Rattle.wq_reply.specs.Plan.{planned};
ghost use Rattle.wq_follow.specs.Started.{IsClocked};

use crate::batch::Batch;
use crate::definition::Definition;
use crate::follower::Follower;
use crate::launch::Launch;
use crate::object_text::ObjectText;
use crate::order::Order;
use crate::start::{Start, start_of};
use std::alloc::AllocError;
use std::sync::Arc;
use wq_base::Text;
use wq_clock::{Bound, Instance};
use wq_reply::{Ahead, Plan};
use wq_verify::StoredProgram;
use wq_view::View;

/// A command that is started when files changed.
pub struct Trigger {
    pub(crate) order: Order,
    pub(crate) follower: Follower,
    /// The object of its definition, with the known keys.
    pub(crate) object: Arc<ObjectText>,
    pub(crate) running: Option<u32>,
    ghost clocked: { IsClocked (planned follower.plan).bound },
}

// A trigger is let go by one call, wherever a function gives up.
impl Drop for Trigger {
    fn drop(self) {
        let Trigger {
            order: _,
            follower: _,
            object: _,
            running: _,
        } = self;
    }
}

impl Trigger {
    ghost use Rattle.std.specs.Prelude.{◌≤◌, IfErr, None, is_err, option_map};
    ghost use Rattle.wq_base.specs.Limit.{max_number};
    ghost use Rattle.wq_clock.specs.Instance.{instance_data};
    ghost use Rattle.wq_reply.specs.Meaning.{AnswersWithin};
    ghost use Rattle.wq_query.specs.Query.{asked_of};
    ghost use Rattle.wq_reply.specs.Listing.{AreWithin};
    ghost use Rattle.wq_follow.specs.Batch.{polled};
    ghost use Rattle.wq_follow.specs.Defined.{definition_data};
    ghost use Rattle.wq_follow.specs.Defining.{triggered};
    ghost use Rattle.wq_follow.specs.Followed.{trigger_data};
    ghost use Rattle.wq_follow.specs.Kept.{data_in};
    ghost use Rattle.wq_follow.specs.Launcher.{AsksRun};
    ghost use Rattle.wq_follow.specs.Follower.{IsBatch, batch_at};
    ghost use Rattle.wq_follow.specs.Round.{Agrees, CountsFailure, FiredData, Fires};
    ghost use Rattle.wq_follow.specs.Round.{WantsMemory, is_short, told_to};
    ghost use Rattle.wq_follow.specs.Start.{start_of};
    ghost use Rattle.wq_follow.specs.Started.{start_data};

    /// The trigger of a definition, for the root with this text. It was told nothing yet.
    ///
    /// The program is the one that is kept under the name that the query has for one. Without a
    /// name, it answers the meaning of the query's expression on every record, and its budget is no
    /// more than the expression's measure. A trigger that replaces another takes over the run of its
    /// command.
    pub fn new(
        definition: Definition,
        root: Text,
        program: Arc<StoredProgram>,
        running: Option<u32>,
    ) -> Trigger
        requires { ((definition_data definition).query).program ≡ None
            → AnswersWithin program.value ((definition_data definition).query).expression }
        ensures { trigger_data result ≡ triggered (definition_data definition) root
            (option_map (λ _. program.value) ((definition_data definition).query).program)
            running }
    {
        let plan = Plan::of(definition.query, Bound::Fresh, program);
        Trigger {
            order: definition.shape.into_order(root),
            follower: Follower::new(plan),
            object: definition.object.into_text(),
            running,
        }
    }

    /// The name.
    pub fn name(&self) -> &str
        ensures { result.now ≡ ((trigger_data self.now).order).name }
    {
        self.order.name.as_str()
    }

    /// The object of its definition, with the known keys, as it is kept.
    pub fn object(&self) -> Result<Arc<ObjectText>, AllocError>
        ensures { IfOk result (λ object. data_in object.value ≡ (trigger_data self.now).object) }
    {
        self.object.clone()
    }

    /// The run of its command, if that was started and no round found that it ended.
    pub fn running(&self) -> Option<u32>
        ensures { result ≡ (trigger_data self.now).running }
    {
        self.running
    }

    /// The next batch, at a view of the root. The trigger does not move: see [`commit`](Trigger::commit).
    ///
    /// At a view that is no newer than the last batch it takes no memory, and no time that grows with the view.
    pub fn poll(&self, view: &View) -> Result<Batch, AllocError>
        ensures batch { IfOk result (IsBatch view.now.records
            (polled (trigger_data self.now).follower view.now)) }
        ensures tick { IfOk result (λ batch. batch.now ≤ max_number) }
        ensures from { IfOk result (λ batch. IsClocked batch.from) }
        ensures wants { IfErr result (λ _. WantsMemory view.now (trigger_data self.now)) }
    {
        self.follower.poll(view, None)
    }

    /// The batch was told: the next one begins at its end. It takes no memory.
    pub fn commit(&mut self, batch: &Batch)
        requires { batch.now.now ≤ max_number }
        ensures { trigger_data self.new ≡ told_to batch.entry.now.now (trigger_data self.old) }
    {
        self.follower.commit(batch);
    }

    /// The start of the command for a batch of this view.
    ///
    /// # Errors
    /// Memory ran out.
    pub fn start_of(
        &self,
        batch: &Batch,
        instance: &Instance,
        view: &View,
    ) -> Result<Start, AllocError>
        requires within { AreWithin view.now.records batch.now.files.items }
        requires now { batch.now.now ≤ max_number }
        requires from { IsClocked batch.now.from }
        ensures { IfOk result (λ start. start_data start ≡ start_of (trigger_data self.now).order
            (instance_data instance.now) (batch_at view.now.records batch.entry.now)) }
    {
        start_of(view.allocator(), &self.order, instance, view, batch)
    }

    /// A round: starts the command at a view of its root, if it does not run and files changed.
    ///
    /// If want of memory keeps it from that, it gives an error. No answer depends on what was found ahead.
    pub fn fire<L: Launch>(
        &mut self,
        instance: &Instance,
        view: &View,
        ahead: Option<&Ahead>,
        launcher: &mut L,
    ) -> Result<(), AllocError>
        requires { IfSome ahead (λ ahead. IsAheadAt view.now.records ahead.now) }
        ensures { (fired : FiredData)
            × Fires (instance_data instance.now) view.now
            (trigger_data self.old) fired (trigger_data self.new)
            × Agrees fired self.old.running (L.shown launcher.old) (L.shown launcher.new)
            × (is_short fired ≡ is_err result)
            × CountsFailure fired (L.failures_of launcher.old) (L.failures_of launcher.new) }
    {
        if !self.is_free(launcher) {
            return Ok(());
        }
        self.running = None;
        let batch = self.follower.poll(view, ahead)?;
        if batch.files.is_empty() {
            self.follower.commit(&batch);
            return Ok(());
        }
        let start = start_of(view.allocator(), &self.order, instance, view, &batch)?;
        let Ok(run) = launcher.start(start) else {
            return Ok(());
        };
        self.follower.commit(&batch);
        self.running = Some(run);
        Ok(())
    }

    /// What a round at a view of this tick asks, if it can be found ahead: the program that says which files match, and
    /// the bound from which they changed.
    ///
    /// There is nothing to find if its command runs, or it was told the changes up to this tick. The call starts
    /// nothing.
    pub fn asks<L: Launch>(
        &self,
        tick: u64,
        launcher: &mut L,
    ) -> Option<(Arc<StoredProgram>, Bound)>
        ensures shown { L.shown launcher.new ≡ L.shown launcher.old }
        ensures counted { L.failures_of launcher.new ≡ L.failures_of launcher.old }
    {
        if self.follower.is_told(tick) || !self.is_free(launcher) {
            return None;
        }
        let plan = self.follower.plan();
        match plan.shared_program() {
            Ok(program) => Some((program, plan.bound())),
            Err(_) => None,
        }
    }

    /// Whether its command does not run.
    #[tactic(auto, using(crate::proofs::Asked::shown_after))]
    fn is_free<L: Launch>(&self, launcher: &mut L) -> bool
        ensures asked { AsksRun self.now.running result (L.shown launcher.old)
            (L.shown launcher.new) }
        ensures shown { L.shown launcher.new ≡ L.shown launcher.old }
        ensures counted { L.failures_of launcher.new ≡ L.failures_of launcher.old }
    {
        match self.running {
            Some(run) => launcher.ended(run),
            None => true,
        }
    }
}
