//! The starts that fail, so that the operator is told of each fault once.
ghost use Rattle.std.specs.Prelude.{◌≡◌, ◌≤◌, ◌&&◌, ◌||◌, IfOk, OnErr, []};
ghost use Rattle.std.specs.Prelude.{string_bytes, vec_capacity, vec_len};
ghost use Rattle.std.specs.Str.{bytes_eq};
ghost use Rattle.wq_launch.specs.FailingStarts.{TellsFirst, after_failure, after_success, is_known};
ghost use Rattle.wq_launch.specs.FailingStarts.{is_start_of, failure_line, quoted, with_failure};
ghost use Rattle.wq_launch.specs.FailingStarts.{without_failure};
ghost use Rattle.wq_launch.specs.Limit.{max_failing};

use crate::words::Words;
use serde_json::Value;
use std::alloc::{AllocError, Global};
use std::marker::Model;
use wq_base::Text;

/// How many failing starts are kept at most: one of each trigger that there may be.
pub(crate) const MAX_FAILING: usize = 1024;

/// A start that failed: its root, its trigger, and the reason in words.
#[derive(Drop)]
pub(crate) struct FailedStart {
    pub(crate) root: Text,
    pub(crate) trigger: Text,
    pub(crate) words: Words,
}

impl FailedStart {
    /// Whether it is a start of this trigger of this root.
    fn is_of(&self, root: &str, trigger: &str) -> bool
        ensures { result ≡ is_start_of root.now trigger.now self.now }
    {
        root == self.root.as_str() && trigger == self.trigger.as_str()
    }

    /// Whether another is of the same trigger, and failed in the same way.
    fn is_same(&self, other: &FailedStart) -> bool
        ensures { result ≡ (is_start_of self.now.root self.now.trigger other.now
            && bytes_eq self.now.words other.now.words) }
    {
        other.is_of(self.root.as_str(), self.trigger.as_str())
            && self.words.as_str() == other.words.as_str()
    }

    /// The line that tells of it.
    fn line(&self, alloc: Global) -> Result<Text, AllocError>
        ensures { IfOk result (λ line. line ≡ failure_line self.now) }
    {
        let root = quoted(alloc, self.root.as_str())?;
        let trigger = quoted(alloc, self.trigger.as_str())?;
        let words = self.words.as_str();
        let line = format!(in alloc; "{root}: trigger {trigger} could not be started: {words}")?;
        Ok(Text::from_string(line))
    }
}

/// A text as a JSON string.
#[tactic(auto, unfolding(crate::specs::FailingStarts::quoted))]
pub(crate) fn quoted(alloc: Global, text: &str) -> Result<String, AllocError>
    ensures { IfOk result (λ s. string_bytes s ≡ quoted text.now) }
{
    Value::try_from_str(alloc, text)?.to_string(alloc)
}

/// The starts that fail: at most [`MAX_FAILING`] of which the operator was told, and as many of which
/// he was not told yet.
#[derive(Drop)]
pub(crate) struct FailingStarts {
    told: Vec<FailedStart>,
    untold: Vec<FailedStart>,
}

impl Model for FailingStarts {
    ghost use Rattle.std.specs.Prelude.{◌≤◌, vec_capacity, vec_len};
    ghost use Rattle.wq_launch.specs.FailingStarts.{FailingData};
    ghost use Rattle.wq_launch.specs.Limit.{max_failing};

    ghost Value = { FailingData };

    ghost view = { λ f. record { told = f.told.items; untold = f.untold.items } };

    ghost invariant = { λ f. (vec_len f.told ≤ max_failing) × (max_failing ≤ vec_capacity f.told)
        × (vec_len f.untold ≤ max_failing) × (max_failing ≤ vec_capacity f.untold) };
}

impl FailingStarts {
    /// No start fails. All memory that it ever needs is taken now.
    pub(crate) fn new(alloc: Global) -> Result<FailingStarts, AllocError>
        ensures { IfOk result (λ f. f ≡ record { told = []; untold = [] }) }
    {
        Ok(FailingStarts {
            told: Vec::with_capacity(alloc, MAX_FAILING)?,
            untold: Vec::with_capacity(alloc, MAX_FAILING)?,
        })
    }

    /// A start failed. It takes no memory.
    pub(crate) fn add(&mut self, failed: FailedStart)
        ensures { self.new ≡ after_failure failed self.old }
    {
        if self.knows(&failed) {
            return;
        }
        self.remove(failed.root.as_str(), failed.trigger.as_str());
        put_start(&mut self.untold, failed);
    }

    /// Whether a start failed before in the same way.
    fn knows(&self, failed: &FailedStart) -> bool
        ensures { result ≡ (is_known failed.now self.now.told
            || is_known failed.now self.now.untold) }
    {
        is_known(&self.told, failed) || is_known(&self.untold, failed)
    }

    /// A start of this trigger did not fail.
    pub(crate) fn remove(&mut self, root: &str, trigger: &str)
        ensures { self.new ≡ after_success root.now trigger.now self.old }
    {
        drop_start(&mut self.told, root, trigger);
        drop_start(&mut self.untold, root, trigger);
    }

    /// The line for the first failing start of which the operator was not told yet. From now on he
    /// was told, unless memory ran out.
    pub(crate) fn next_line(&mut self, alloc: Global) -> Result<Option<Text>, AllocError>
        ensures ok { IfOk result (λ line. TellsFirst self.old line self.new) }
        ensures err { OnErr result (self.new ≡ self.old) }
    {
        let Some(first) = self.untold.first() else {
            return Ok(None);
        };
        let line = first.line(alloc)?;
        let first = self.untold.remove(0);
        put_start(&mut self.told, first);
        Ok(Some(line))
    }
}

/// Whether a start is one of these, and failed in the same way.
fn is_known(starts: &[FailedStart], failed: &FailedStart) -> bool
    ensures { result ≡ is_known failed.now starts.now }
{
    starts.iter().any(|it| failed.is_same(it))
}

/// Takes out the failing starts of a trigger.
fn drop_start(starts: &mut Vec<FailedStart>, root: &str, trigger: &str)
    ensures others { starts.new.items ≡ without_failure root.now trigger.now starts.old.items }
    ensures shorter { vec_len starts.new ≤ vec_len starts.old }
    ensures room { vec_capacity starts.new ≡ vec_capacity starts.old }
{
    starts.retain(|it| !it.is_of(root, trigger));
}

/// Puts a failing start last. The first one goes if there is no room.
fn put_start(starts: &mut Vec<FailedStart>, failed: FailedStart)
    requires room { max_failing ≤ vec_capacity starts.old }
    requires within { vec_len starts.old ≤ max_failing }
    ensures put { starts.new.items ≡ with_failure failed starts.old.items }
    ensures within { vec_len starts.new ≤ max_failing }
    ensures room { vec_capacity starts.new ≡ vec_capacity starts.old }
{
    if starts.len() >= MAX_FAILING {
        starts.remove(0);
    }
    starts.push_reserved(failed);
}
