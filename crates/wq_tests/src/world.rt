//! Tests that play worlds: crawls and openings of roots, lines of clients, idle moments, rounds of triggers and ends of
//! their commands, in turn. The tests of rounds are in `round`.

use crate::tree::pass;
use itoa::Buffer;
use std::alloc::{AllocError, Global};
use std::process::Abort;
use std::test::Fail;
use wq_ask::Ask;
use wq_base::{Table, Text};
use wq_clock::Run;
use wq_crawl::CrawlFault;
use wq_patch::TreeFault;
use wq_replay::{Happening, Sent, SentLines, World};
use wq_session::ReplyLine;
use wq_stream::Event;
use wq_view::Pass;

/// Something that happens. A root and a client's line are texts, and the listing of a root is one of the trees below.
#[derive(Clone, Copy)]
pub(crate) enum Happens {
    Crawl(&'static str, Result<usize, CrawlFault>),
    Watch(&'static str, Result<usize, CrawlFault>),
    Line(i64, &'static str),
    /// A line that is too long. It ends the client's session.
    Long(i64),
    /// The client has gone.
    End(i64),
    /// The client has an idle moment of the root of this number.
    Idle(i64, u64),
    /// The triggers of the root have a round, with these answers of the launcher.
    Round(&'static str, &'static [Option<u32>]),
    /// The run of this number has ended.
    Ended(u32),
}

/// The trees that a root may list: one without files, and two with one file each.
pub(crate) const NONE: usize = 0;

pub(crate) const A: usize = 1;

pub(crate) const B: usize = 2;

fn trees(alloc: Global) -> Result<Vec<Pass>, Fail> {
    let mut trees = Vec::new(alloc);
    trees.push(pass(alloc, &[], 100)?)?;
    trees.push(pass(alloc, &[b"a"], 100)?)?;
    trees.push(pass(alloc, &[b"b"], 101)?)?;
    Ok(trees)
}

pub(crate) const NAMES: &str = r#"["query","/r",{"fields":["name"]}]"#;

const NAMES_AT_ONCE: &str = r#"["query","/r",{"fields":["name"],"sync_timeout":0}]"#;

/// A world that began as process 9 at second 7.
fn new_world(alloc: Global) -> Result<World, AllocError> {
    let run = Run { start: 7, pid: 9 };
    World::new(alloc, run, String::from_str(alloc, "socket")?)
}

/// The lines that such a world sends while it plays these happenings.
fn play(alloc: Global, happenings: Vec<Happening<'_>>) -> Result<Vec<Sent>, AllocError> {
    let mut world = new_world(alloc)?;
    world.play(happenings)
}

/// The lines that such a world sends in these steps.
fn played(alloc: Global, steps: &[Happens]) -> Result<Vec<Sent>, Fail> {
    let trees = trees(alloc)?;
    let happenings = happenings(alloc, &trees, steps)?;
    Ok(play(alloc, happenings)?)
}

fn happenings<'a>(
    alloc: Global,
    trees: &'a [Pass],
    steps: &[Happens],
) -> Result<Vec<Happening<'a>>, AllocError> {
    let mut happenings = Vec::new(alloc);
    for step in steps {
        happenings.push(happening(alloc, trees, *step)?)?;
    }
    Ok(happenings)
}

fn happening<'a>(
    alloc: Global,
    trees: &'a [Pass],
    step: Happens,
) -> Result<Happening<'a>, AllocError> {
    match step {
        Happens::Crawl(root, tree) => crawl(alloc, root, seen(trees, tree)),
        Happens::Watch(root, tree) => watch(alloc, root, seen(trees, tree)),
        Happens::Line(client, line) => Ok(asked(alloc, client, line_event(alloc, line)?)),
        Happens::Long(client) => Ok(asked(alloc, client, Event::Long)),
        Happens::End(client) => Ok(asked(alloc, client, Event::End)),
        Happens::Idle(client, root) => Ok(Happening::Idle { client, root }),
        Happens::Round(root, answers) => round(alloc, root, answers),
        Happens::Ended(run) => Ok(Happening::Ended { run }),
    }
}

fn crawl<'a>(
    alloc: Global,
    root: &str,
    seen: Result<&'a Pass, CrawlFault>,
) -> Result<Happening<'a>, AllocError> {
    let root = Text::copied(alloc, root)?;
    Ok(Happening::Crawl { root, seen })
}

fn watch<'a>(
    alloc: Global,
    root: &str,
    seen: Result<&'a Pass, CrawlFault>,
) -> Result<Happening<'a>, AllocError> {
    let root = Text::copied(alloc, root)?;
    Ok(Happening::Watch { root, seen })
}

fn round<'a>(
    alloc: Global,
    root: &str,
    answers: &[Option<u32>],
) -> Result<Happening<'a>, AllocError> {
    let root = Text::copied(alloc, root)?;
    let answers = Vec::from_slice(alloc, answers)?;
    Ok(Happening::Round { root, answers })
}

fn asked<'a>(alloc: Global, client: i64, event: Event) -> Happening<'a> {
    let ask = Ask::read(alloc, event);
    Happening::Asked { client, ask }
}

fn line_event(alloc: Global, line: &str) -> Result<Event, AllocError> {
    let bytes = Vec::from_slice(alloc, line.as_bytes())?;
    Ok(Event::Line(Table::from_vec(bytes)))
}

fn seen(trees: &[Pass], tree: Result<usize, CrawlFault>) -> Result<&Pass, CrawlFault> {
    match tree {
        Ok(at) => trees.get(at).ok_or(CrawlFault::Tree(TreeFault::Unreadable)),
        Err(fault) => Err(fault),
    }
}

/// The lines that were sent, as a text.
fn shown(alloc: Global, sent: &[Sent]) -> Result<Vec<u8>, AllocError> {
    let mut written = Vec::new(alloc);
    for one in sent {
        match one {
            Sent::ToClient(told) => show_told(told, &mut written)?,
            Sent::OfRound(lines) => show_round(lines.as_slice(), &mut written)?,
        }
    }
    Ok(written)
}

/// For the reply and for each list: the client's number, a space, the text and a newline. Before a reply that ends the
/// server there is a `!`.
fn show_told(told: &SentLines, written: &mut Vec<u8>) -> Result<(), AllocError> {
    if told.out().shuts() {
        written.push(b'!')?;
    }
    if let ReplyLine::Whole(line) = told.out().line() {
        show(told.client(), line, written)?;
    }
    for list in told.out().lists() {
        show(told.client(), list.as_bytes(), written)?;
    }
    Ok(())
}

/// Each line of a round, with a newline.
fn show_round(lines: &[Table<u8>], written: &mut Vec<u8>) -> Result<(), AllocError> {
    for line in lines {
        written.extend_from_slice(line.as_slice())?;
        written.push(b'\n')?;
    }
    Ok(())
}

fn show(client: i64, line: &[u8], written: &mut Vec<u8>) -> Result<(), AllocError> {
    let mut number = Buffer::new();
    written.extend_from_slice(number.format(client).as_bytes())?;
    written.push(b' ')?;
    written.extend_from_slice(line)?;
    Ok(())
}

/// Asserts the lines that a world sends while it plays these happenings.
pub(crate) fn check(
    rt: &impl Abort,
    alloc: Global,
    steps: &[Happens],
    want: &str,
) -> Result<(), Fail> {
    let written = shown(alloc, &played(alloc, steps)?)?;
    assert!(rt; written.as_slice() == want.as_bytes());
    Ok(())
}

/// The files that a crawl saw are shown from then on, to lines that synchronise and to lines that do not wait for a
/// crawl.
#[test]
fn a_crawl_is_seen_by_each_line_behind_it(rt: HostRuntime) -> Result<(), Fail> {
    check(
        &rt,
        rt.alloc(),
        &[
            Happens::Line(1, NAMES_AT_ONCE),
            Happens::Crawl("/r", Ok(A)),
            Happens::Line(1, NAMES),
            Happens::Line(2, NAMES_AT_ONCE),
            Happens::Crawl("/r", Ok(B)),
            Happens::Line(2, NAMES_AT_ONCE),
        ],
        concat!(
            "1 {\"clock\":\"c:7:9:1:0\",\"files\":[],\"is_fresh_instance\":true,\"version\":\"wq-1\"}\n",
            "1 {\"clock\":\"c:7:9:1:1\",\"files\":[\"a\"],\"is_fresh_instance\":true,\"version\":\"wq-1\"}\n",
            "2 {\"clock\":\"c:7:9:1:1\",\"files\":[\"a\"],\"is_fresh_instance\":true,\"version\":\"wq-1\"}\n",
            "2 {\"clock\":\"c:7:9:1:2\",\"files\":[\"b\"],\"is_fresh_instance\":true,\"version\":\"wq-1\"}\n",
        ),
    )
}

/// If a crawl was refused, the next line that synchronises is refused too. Then the refusal is forgotten, and the view
/// is as before.
#[test]
fn a_refused_crawl_refuses_the_line_behind_it(rt: HostRuntime) -> Result<(), Fail> {
    check(
        &rt,
        rt.alloc(),
        &[
            Happens::Crawl("/r", Ok(A)),
            Happens::Line(1, NAMES),
            Happens::Crawl("/r", Err(CrawlFault::Tree(TreeFault::Unreadable))),
            Happens::Line(1, NAMES),
            Happens::Line(1, NAMES_AT_ONCE),
            Happens::Line(1, NAMES),
        ],
        concat!(
            "1 {\"clock\":\"c:7:9:1:1\",\"files\":[\"a\"],\"is_fresh_instance\":true,\"version\":\"wq-1\"}\n",
            "1 {\"error\":\"E11: root cannot be read\",\"version\":\"wq-1\"}\n",
            "1 {\"clock\":\"c:7:9:1:1\",\"files\":[\"a\"],\"is_fresh_instance\":true,\"version\":\"wq-1\"}\n",
            "1 {\"clock\":\"c:7:9:1:1\",\"files\":[\"a\"],\"is_fresh_instance\":true,\"version\":\"wq-1\"}\n",
        ),
    )
}

/// A line that does not wait for a crawl is answered at the passes so far. It also separates a refused crawl from the
/// lines after it.
#[test]
fn a_refused_crawl_refuses_no_other_line(rt: HostRuntime) -> Result<(), Fail> {
    check(
        &rt,
        rt.alloc(),
        &[
            Happens::Crawl("/r", Err(CrawlFault::Tree(TreeFault::TooManyRows))),
            Happens::Line(1, NAMES_AT_ONCE),
            Happens::Crawl("/r", Err(CrawlFault::Tree(TreeFault::TooManyRows))),
            Happens::Line(2, r#"["version"]"#),
            Happens::Line(1, NAMES),
            Happens::Crawl("/q", Err(CrawlFault::Tree(TreeFault::Unreadable))),
            Happens::Line(1, NAMES),
        ],
        concat!(
            "1 {\"clock\":\"c:7:9:1:0\",\"files\":[],\"is_fresh_instance\":true,\"version\":\"wq-1\"}\n",
            "2 {\"version\":\"wq-1\"}\n",
            "1 {\"clock\":\"c:7:9:1:0\",\"files\":[],\"is_fresh_instance\":true,\"version\":\"wq-1\"}\n",
            "1 {\"clock\":\"c:7:9:1:0\",\"files\":[],\"is_fresh_instance\":true,\"version\":\"wq-1\"}\n",
        ),
    )
}

/// A world goes on after the line that ends the server. Its player hears which line that was.
#[test]
fn a_line_behind_the_end_of_the_server_is_answered(rt: HostRuntime) -> Result<(), Fail> {
    check(
        &rt,
        rt.alloc(),
        &[
            Happens::Line(1, r#"["shutdown-server"]"#),
            Happens::Line(2, r#"["version"]"#),
        ],
        "!1 {\"shutdown-server\":true,\"version\":\"wq-1\"}\n2 {\"version\":\"wq-1\"}\n",
    )
}

/// A session ends by a line that is too long, and if its client has gone. Such a client is sent nothing. A later line
/// of the same number belongs to a new session.
#[test]
fn a_line_behind_the_end_of_a_session_begins_another(rt: HostRuntime) -> Result<(), Fail> {
    check(
        &rt,
        rt.alloc(),
        &[
            Happens::Long(1),
            Happens::Line(1, r#"["version"]"#),
            Happens::End(1),
            Happens::Line(1, r#"["watch-list"]"#),
        ],
        concat!(
            "1 {\"error\":\"E1: line too long\",\"version\":\"wq-1\"}\n",
            "1 {\"version\":\"wq-1\"}\n",
            "1 {\"roots\":[\"/r\"],\"version\":\"wq-1\"}\n",
        ),
    )
}

/// A root is started once, under the next number. A watch finds it, or is refused with the fault of its start.
#[test]
fn a_root_is_opened_for_its_watch(rt: HostRuntime) -> Result<(), Fail> {
    let watch = r#"["watch","/q/"]"#;
    check(
        &rt,
        rt.alloc(),
        &[
            Happens::Line(1, watch),
            Happens::Watch("/q", Err(CrawlFault::Tree(TreeFault::Unreadable))),
            Happens::Line(1, watch),
            Happens::Watch("/q", Ok(A)),
            Happens::Line(1, watch),
            Happens::Watch("/q", Err(CrawlFault::Tree(TreeFault::Unreadable))),
            Happens::Line(2, watch),
            Happens::Line(1, r#"["clock","/q"]"#),
            Happens::Line(1, r#"["watch-list"]"#),
        ],
        concat!(
            "1 {\"error\":\"E14: root is not watched\",\"version\":\"wq-1\"}\n",
            "1 {\"error\":\"E11: root cannot be read\",\"version\":\"wq-1\"}\n",
            "1 {\"version\":\"wq-1\",\"watch\":\"/q\",\"watcher\":\"poll\"}\n",
            "2 {\"version\":\"wq-1\",\"watch\":\"/q\",\"watcher\":\"poll\"}\n",
            "1 {\"clock\":\"c:7:9:2:1\",\"version\":\"wq-1\"}\n",
            "1 {\"roots\":[\"/r\",\"/q\"],\"version\":\"wq-1\"}\n",
        ),
    )
}

/// A root that was deleted is no longer crawled. It has another number when it is watched again.
#[test]
fn a_root_is_deleted_and_watched_again(rt: HostRuntime) -> Result<(), Fail> {
    check(
        &rt,
        rt.alloc(),
        &[
            Happens::Crawl("/r", Ok(A)),
            Happens::Line(1, r#"["watch-del","/r"]"#),
            Happens::Crawl("/r", Ok(B)),
            Happens::Line(1, NAMES),
            Happens::Line(1, r#"["watch-del","/r"]"#),
            Happens::Watch("/r", Ok(B)),
            Happens::Line(1, r#"["watch","/r"]"#),
            Happens::Line(1, NAMES_AT_ONCE),
        ],
        concat!(
            "1 {\"root\":\"/r\",\"version\":\"wq-1\",\"watch-del\":true}\n",
            "1 {\"error\":\"E14: root is not watched\",\"version\":\"wq-1\"}\n",
            "1 {\"error\":\"E14: root is not watched\",\"version\":\"wq-1\"}\n",
            "1 {\"version\":\"wq-1\",\"watch\":\"/r\",\"watcher\":\"poll\"}\n",
            "1 {\"clock\":\"c:7:9:2:1\",\"files\":[\"b\"],\"is_fresh_instance\":true,\"version\":\"wq-1\"}\n",
        ),
    )
}

/// A seventeenth root is refused before it is listed. After another root was deleted, there is a place for it.
#[test]
fn sixteen_roots_are_shown(rt: HostRuntime) -> Result<(), Fail> {
    check(
        &rt,
        rt.alloc(),
        &[
            Happens::Watch("/1", Ok(NONE)),
            Happens::Watch("/2", Ok(NONE)),
            Happens::Watch("/3", Ok(NONE)),
            Happens::Watch("/4", Ok(NONE)),
            Happens::Watch("/5", Ok(NONE)),
            Happens::Watch("/6", Ok(NONE)),
            Happens::Watch("/7", Ok(NONE)),
            Happens::Watch("/8", Ok(NONE)),
            Happens::Watch("/9", Ok(NONE)),
            Happens::Watch("/a", Ok(NONE)),
            Happens::Watch("/b", Ok(NONE)),
            Happens::Watch("/c", Ok(NONE)),
            Happens::Watch("/d", Ok(NONE)),
            Happens::Watch("/e", Ok(NONE)),
            Happens::Watch("/f", Ok(NONE)),
            Happens::Watch("/q", Err(CrawlFault::Tree(TreeFault::Unreadable))),
            Happens::Line(1, r#"["watch","/q"]"#),
            Happens::Line(1, r#"["watch-del","/r"]"#),
            Happens::Watch("/q", Ok(NONE)),
            Happens::Line(1, r#"["watch","/q"]"#),
            Happens::Line(1, r#"["clock","/q"]"#),
        ],
        concat!(
            "1 {\"error\":\"E13: too many roots\",\"version\":\"wq-1\"}\n",
            "1 {\"root\":\"/r\",\"version\":\"wq-1\",\"watch-del\":true}\n",
            "1 {\"version\":\"wq-1\",\"watch\":\"/q\",\"watcher\":\"poll\"}\n",
            "1 {\"clock\":\"c:7:9:17:0\",\"version\":\"wq-1\"}\n",
        ),
    )
}

const SUBSCRIBES: &str = r#"["subscribe","/r","s",{"fields":["name"]}]"#;

/// An idle moment is for one root: the subscriptions of another root get nothing. It sends nothing to a client without
/// subscriptions, and nothing about a root that was never there.
#[test]
fn an_idle_moment_is_one_of_a_root(rt: HostRuntime) -> Result<(), Fail> {
    check(
        &rt,
        rt.alloc(),
        &[
            Happens::Watch("/q", Ok(NONE)),
            Happens::Line(-7, r#"["watch","/q"]"#),
            Happens::Line(-7, r#"["subscribe","/q","q",{"fields":["name"]}]"#),
            Happens::Line(-7, SUBSCRIBES),
            Happens::Crawl("/r", Ok(A)),
            Happens::Crawl("/q", Ok(B)),
            Happens::Idle(1, 1),
            Happens::Idle(-7, 3),
            Happens::Idle(-7, 1),
            Happens::Idle(-7, 2),
            Happens::Idle(-7, 1),
        ],
        concat!(
            "-7 {\"version\":\"wq-1\",\"watch\":\"/q\",\"watcher\":\"poll\"}\n",
            "-7 {\"clock\":\"c:7:9:2:0\",\"subscribe\":\"q\",\"version\":\"wq-1\"}\n",
            "-7 {\"clock\":\"c:7:9:2:0\",\"files\":[],\"is_fresh_instance\":true,\"root\":\"/q\",\"subscription\":\"q\",\"unilateral\":true,\"version\":\"wq-1\"}\n",
            "-7 {\"clock\":\"c:7:9:1:0\",\"subscribe\":\"s\",\"version\":\"wq-1\"}\n",
            "-7 {\"clock\":\"c:7:9:1:0\",\"files\":[],\"is_fresh_instance\":true,\"root\":\"/r\",\"subscription\":\"s\",\"unilateral\":true,\"version\":\"wq-1\"}\n",
            "-7 {\"clock\":\"c:7:9:1:1\",\"files\":[\"a\"],\"is_fresh_instance\":false,\"root\":\"/r\",\"subscription\":\"s\",\"unilateral\":true,\"version\":\"wq-1\"}\n",
            "-7 {\"clock\":\"c:7:9:2:1\",\"files\":[\"b\"],\"is_fresh_instance\":false,\"root\":\"/q\",\"subscription\":\"q\",\"unilateral\":true,\"version\":\"wq-1\"}\n",
        ),
    )
}

/// A refused crawl counts only for the line directly after it. If an idle moment comes between, it no longer counts.
#[test]
fn an_idle_moment_follows_a_refused_crawl(rt: HostRuntime) -> Result<(), Fail> {
    check(
        &rt,
        rt.alloc(),
        &[
            Happens::Crawl("/r", Err(CrawlFault::Tree(TreeFault::Unreadable))),
            Happens::Idle(1, 1),
            Happens::Line(1, NAMES),
        ],
        "1 {\"clock\":\"c:7:9:1:0\",\"files\":[],\"is_fresh_instance\":true,\"version\":\"wq-1\"}\n",
    )
}

/// A session that ended has no subscriptions, and the next session of its number has none either.
#[test]
fn a_session_ends_with_its_subscriptions(rt: HostRuntime) -> Result<(), Fail> {
    check(
        &rt,
        rt.alloc(),
        &[
            Happens::Line(1, SUBSCRIBES),
            Happens::Long(1),
            Happens::Crawl("/r", Ok(A)),
            Happens::Idle(1, 1),
            Happens::Line(1, r#"["unsubscribe","/r","s"]"#),
        ],
        concat!(
            "1 {\"clock\":\"c:7:9:1:0\",\"subscribe\":\"s\",\"version\":\"wq-1\"}\n",
            "1 {\"clock\":\"c:7:9:1:0\",\"files\":[],\"is_fresh_instance\":true,\"root\":\"/r\",\"subscription\":\"s\",\"unilateral\":true,\"version\":\"wq-1\"}\n",
            "1 {\"error\":\"E1: line too long\",\"version\":\"wq-1\"}\n",
            "1 {\"deleted\":false,\"unsubscribe\":\"s\",\"version\":\"wq-1\"}\n",
        ),
    )
}
