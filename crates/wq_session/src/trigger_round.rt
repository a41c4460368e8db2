//! Rounds of triggers: the command of each trigger of a root is started, if it is not running and files changed.
ghost use Rattle.std.specs.Prelude.{◌≡◌, ◌<◌, IfSome, List, length};
ghost use Rattle.wq_clock.specs.Instance.{instance_data};
ghost use Rattle.wq_crawl.specs.At.{at_data};
ghost use Rattle.wq_reply.specs.Ahead.{AreAheadAt, IsAheadAt};
ghost use Rattle.wq_registry.specs.Shelf.{triggers_of};
ghost use Rattle.wq_session.specs.Round.{HasTurn, IsCountedRound, RoundsAt};
ghost use Rattle.wq_session.specs.Shelved.{shelf_data};
ghost use Rattle.wq_record.specs.RecordData.{RecordData};

use wq_clock::Instance;
use wq_crawl::At;
use wq_follow::{Launch, Trigger};
use wq_registry::Shelf;
use wq_reply::Ahead;
use wq_view::View;

/// A round of the triggers of the root that is looked at, in their order ([`round_ahead`]). Nothing was found ahead of it.
/// It does nothing if the root shows no view, or is not on the shelf under its number.
pub fn round<L: Launch>(shelf: &mut Shelf<Trigger>, at: At<'_>, launcher: &mut L)
    ensures { RoundsAt (at_data at.entry) (shelf_data shelf.old) (L.shown launcher.old)
        (L.failures_of launcher.old) (shelf_data shelf.new) (L.shown launcher.new)
        (L.failures_of launcher.new) }
{
    if let Some(view) = at.view {
        round_ahead(&at.instance, view, shelf, &[], launcher);
    }
}

/// A round of the triggers of a root, in their order, at a view of it. It does nothing if the root is not on the shelf
/// under the number of the instance.
///
/// If memory runs out for a trigger, or its command cannot be started, that one has not moved, and has its turn again in
/// a later round. The launcher's count of failures rose in each turn whose start failed, and in no other.
///
/// What was found ahead for the trigger at each place saves a run of its program, and changes no answer.
pub fn round_ahead<L: Launch>(
    instance: &Instance,
    view: &View,
    shelf: &mut Shelf<Trigger>,
    ahead: &[Option<Ahead>],
    launcher: &mut L,
)
    requires { AreAheadAt view.now.records ahead.now }
    ensures { IsCountedRound (instance_data instance.now) view.now (shelf_data shelf.old)
        (L.shown launcher.old) (L.failures_of launcher.old) (shelf_data shelf.new)
        (L.shown launcher.new) (L.failures_of launcher.new) }
{
    let count = count_of(shelf, instance.root);
    for k in 0..count {
        let found = ahead_at(ahead, k);
        fire_at(instance, view, shelf, k, found, launcher);
    }
}

/// What was found ahead for the trigger at a place.
fn ahead_at(ahead: &[Option<Ahead>], k: usize) -> Option<&Ahead>
    ensures { (records : List RecordData) → AreAheadAt records ahead.now
        → IfSome result (λ found. IsAheadAt records found.now) }
{
    match ahead.get(k) {
        Some(Some(found)) => Some(found),
        _ => None,
    }
}

/// How many triggers a root has.
fn count_of(shelf: &Shelf<Trigger>, number: u64) -> usize
    ensures { result ≡ length (triggers_of number (shelf_data shelf.now)) }
{
    match shelf.root(number) {
        Some(root) => root.trigger_count(),
        None => 0,
    }
}

/// The turn of the trigger at a place.
fn fire_at<L: Launch>(
    instance: &Instance,
    view: &View,
    shelf: &mut Shelf<Trigger>,
    k: usize,
    ahead: Option<&Ahead>,
    launcher: &mut L,
)
    requires place { k < length (triggers_of instance.now.root (shelf_data shelf.old)) }
    requires ahead { IfSome ahead (λ ahead. IsAheadAt view.now.records ahead.now) }
    ensures { HasTurn (instance_data instance.now) view.now (shelf_data shelf.old) k
        (L.shown launcher.old) (L.failures_of launcher.old) (shelf_data shelf.new)
        (L.shown launcher.new) (L.failures_of launcher.new) }
{
    if let Some(trigger) = shelf.trigger_mut(instance.root, k) {
        // If memory ran out, it has not moved, and has its turn in a later round.
        let _ = trigger.fire(instance, view, ahead, launcher);
    }
}
