//! The happenings that a line of a script brings. An ask brings the crawl or the watching that it needs, and
//! then itself. Other lines bring idle moments, a round of triggers, or the end of a run. `world` lets
//! them happen.
ghost use Rattle.std.specs.Prelude.{◌≡◌, ◌++◌, ◌∷◌, [], IfOk, map, option_to_list};
ghost use Rattle.wq_session.specs.Need.{need_of};
ghost use Rattle.wq_crawl.specs.Need.{need_data};
ghost use Rattle.wq_replay.specs.Replay.{end_if, listed_root, needed, rounds};
ghost use Rattle.wq_replay.specs.Stands.{crawl_data, happening_data};
ghost use Rattle.wq_replay.specs.World.{asked, idle};

use crate::happening::Happening;
use crate::world::ROOT;
use std::alloc::{AllocError, Global};
use wq_ask::Ask;
use wq_base::Text;
use wq_crawl::{CrawlFault, Need};
use wq_patch::TreeFault;
use wq_session::need_of;
use wq_view::Pass;

/// The happenings if a client asks this while `/r` lists that.
pub(crate) fn happenings(
    alloc: Global,
    tree: &Pass,
    client: i64,
    ask: Ask,
) -> Result<Vec<Happening<'_>>, AllocError>
    ensures { IfOk result (λ all. map happening_data all.items
        ≡ needed tree.now (need_of ask) ++ asked client ask ∷ []) }
{
    let mut happenings = before(alloc, tree, need_of(&ask))?;
    happenings.push(Happening::Asked { client, ask })?;
    Ok(happenings)
}

/// The crawl or the watching that an ask needs, if it needs one, in a list with room for the ask.
fn before<'a>(
    alloc: Global,
    tree: &'a Pass,
    need: Need<'_>,
) -> Result<Vec<Happening<'a>>, AllocError>
    ensures { IfOk result (λ all. map happening_data all.items
        ≡ needed tree.now (need_data need.entry)) }
{
    let mut happenings = Vec::with_capacity(alloc, 2)?;
    if let Some(first) = needed(alloc, tree, need)? {
        happenings.push(first)?;
    }
    Ok(happenings)
}

/// An idle moment of each root of these numbers for a client.
pub(crate) fn moments<'a>(
    alloc: Global,
    client: i64,
    numbers: &[u64],
) -> Result<Vec<Happening<'a>>, AllocError>
    ensures { IfOk result (λ all. map happening_data all.items ≡ map (idle client) numbers.now) }
{
    let mut moments = Vec::with_capacity(alloc, numbers.len())?;
    for &root in numbers {
        moments.push(Happening::Idle { client, root })?;
    }
    Ok(moments)
}

/// A round of the triggers of `/r`, with these answers of the launcher.
pub(crate) fn rounds<'a>(
    alloc: Global,
    answers: Vec<Option<u32>>,
) -> Result<Vec<Happening<'a>>, AllocError>
    ensures { IfOk result (λ all. map happening_data all.items ≡ rounds answers.items) }
{
    let root = Text::copied(alloc, ROOT)?;
    let mut rounds = Vec::with_capacity(alloc, 1)?;
    rounds.push(Happening::Round { root, answers })?;
    Ok(rounds)
}

/// The end of a run, if there is one.
pub(crate) fn end_if<'a>(alloc: Global, run: Option<u32>) -> Result<Vec<Happening<'a>>, AllocError>
    ensures { IfOk result (λ all. map happening_data all.items ≡ end_if run) }
{
    let mut ends = Vec::new(alloc);
    if let Some(run) = run {
        ends.push(Happening::Ended { run })?;
    }
    Ok(ends)
}

/// The crawl or the watching that an ask needs, if it needs one.
fn needed<'a>(
    alloc: Global,
    tree: &'a Pass,
    need: Need<'_>,
) -> Result<Option<Happening<'a>>, AllocError>
    ensures { IfOk result (λ first. map happening_data (option_to_list first)
        ≡ needed tree.now (need_data need.entry)) }
{
    match need {
        Need::Crawl(name) => Ok(Some(Happening::Crawl {
            root: Text::copied(alloc, name)?,
            seen: listed(tree, name),
        })),
        Need::Open(name) => Ok(Some(Happening::Watch {
            root: Text::copied(alloc, name)?,
            seen: listed(tree, name),
        })),
        _ => Ok(None),
    }
}

/// The listing of a root: for `/r`, the tree that a script has set. No other root can be read.
fn listed<'a>(tree: &'a Pass, root: &str) -> Result<&'a Pass, CrawlFault>
    ensures { crawl_data result ≡ listed_root tree.now root.now }
{
    if root == ROOT {
        Ok(tree)
    } else {
        Err(CrawlFault::Tree(TreeFault::Unreadable))
    }
}
