//! The root that is looked at, for an answer: it is one with a share of its view, and the one that a line names.
ghost use Rattle.std.specs.Prelude.{◌≡◌, false, is_none, option_map, IfSome};
ghost use Rattle.wq_registry.specs.Root.{numbered};
ghost use Rattle.wq_crawl.specs.At.{at_data};
ghost use Rattle.wq_crawl.specs.Views.{root_at_data};
ghost use Rattle.wq_session.specs.At.{watched};
ghost use Rattle.wq_session.specs.Shelved.{shelf_data};

use wq_ask::RootText;
use wq_crawl::{At, RootAt};
use wq_follow::Trigger;
use wq_registry::Shelf;

/// The root with a share of its view, if there is one, for an answer.
pub(crate) fn at_of(root: &Option<RootAt>) -> Option<At<'_>>
    ensures { option_map at_data result ≡ option_map root_at_data root.now }
{
    match root {
        Some(root) => Some(root.at()),
        None => None,
    }
}

/// The root that is looked at, if it is this root, under its number on the shelf.
#[tactic(auto, using(crate::proofs::Rooted::number_there))]
pub(crate) fn watched<'a>(
    root: &RootText,
    at: Option<At<'a>>,
    shelf: &Shelf<Trigger>,
) -> Option<At<'a>>
    ensures value { option_map at_data result
        ≡ watched root.now (option_map at_data at.entry) (shelf_data shelf.now) }
    ensures there { IfSome result (λ at.
        is_none (numbered at.instance.root shelf.now.roots) ≡ false) }
{
    let at = at?;
    let root = shelf.root_called(root.as_str())?;
    if at.instance.root == root.number() {
        Some(at)
    } else {
        None
    }
}
