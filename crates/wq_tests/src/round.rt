//! Rounds of triggers in a world that is played, and ends of their commands.

use crate::world::{A, B, Happens, NAMES, NONE, check};
use std::test::Fail;
use wq_crawl::CrawlFault;
use wq_patch::TreeFault;

const TRIGGERS: &str = r#"["trigger","/r",{"name":"t","command":["r"],"append_files":true}]"#;

const TRIGGERS_AT_Q: &str = r#"["trigger","/q",{"name":"t","command":["q"],"append_files":true}]"#;

/// A round is for one root: the triggers of another root have no turn, and a root that was never there has no round.
/// The round passes over a trigger whose command runs, until that run has ended. A start that failed has no number.
#[test]
fn a_round_is_one_of_a_root(rt: HostRuntime) -> Result<(), Fail> {
    check(
        &rt,
        rt.alloc(),
        &[
            Happens::Watch("/q", Ok(NONE)),
            Happens::Line(1, r#"["watch","/q"]"#),
            Happens::Line(1, TRIGGERS),
            Happens::Line(2, TRIGGERS_AT_Q),
            Happens::Crawl("/r", Ok(A)),
            Happens::Crawl("/q", Ok(B)),
            Happens::Round("/x", &[Some(9)]),
            Happens::Round("/r", &[None, Some(9)]),
            Happens::Round("/q", &[Some(1)]),
            Happens::Round("/r", &[Some(2)]),
            Happens::Crawl("/r", Ok(B)),
            Happens::Crawl("/q", Ok(A)),
            Happens::Ended(1),
            Happens::Ended(7),
            Happens::Round("/r", &[Some(3)]),
            Happens::Round("/q", &[Some(3)]),
            Happens::Ended(2),
            Happens::Ended(2),
            Happens::Round("/r", &[Some(4)]),
        ],
        concat!(
            "1 {\"version\":\"wq-1\",\"watch\":\"/q\",\"watcher\":\"poll\"}\n",
            "1 {\"disposition\":\"created\",\"triggerid\":\"t\",\"version\":\"wq-1\"}\n",
            "2 {\"disposition\":\"created\",\"triggerid\":\"t\",\"version\":\"wq-1\"}\n",
            "failed t\n",
            "start {\"args\":[\"q\",\"b\"],\"env\":{\"WATCHMAN_CLOCK\":\"c:7:9:2:1\",\"WATCHMAN_ROOT\":\"/q\",\"WATCHMAN_TRIGGER\":\"t\"},\"name\":\"t\",\"stdin\":\"\"}\n",
            "start {\"args\":[\"r\",\"a\"],\"env\":{\"WATCHMAN_CLOCK\":\"c:7:9:1:1\",\"WATCHMAN_ROOT\":\"/r\",\"WATCHMAN_TRIGGER\":\"t\"},\"name\":\"t\",\"stdin\":\"\"}\n",
            "start {\"args\":[\"q\",\"a\",\"b\"],\"env\":{\"WATCHMAN_CLOCK\":\"c:7:9:2:2\",\"WATCHMAN_ROOT\":\"/q\",\"WATCHMAN_SINCE\":\"c:7:9:2:1\",\"WATCHMAN_TRIGGER\":\"t\"},\"name\":\"t\",\"stdin\":\"\"}\n",
            "start {\"args\":[\"r\",\"a\",\"b\"],\"env\":{\"WATCHMAN_CLOCK\":\"c:7:9:1:2\",\"WATCHMAN_ROOT\":\"/r\",\"WATCHMAN_SINCE\":\"c:7:9:1:1\",\"WATCHMAN_TRIGGER\":\"t\"},\"name\":\"t\",\"stdin\":\"\"}\n",
        ),
    )
}

const FIRST: &str = r#"["trigger","/r",{"name":"first","command":["r"],"append_files":true}]"#;

const SECOND: &str = r#"["trigger","/r",{"name":"second","command":["r"],"append_files":true}]"#;

const THIRD: &str = r#"["trigger","/r",{"name":"third","command":["r"],"append_files":true}]"#;

/// Each start has its own answer. Two runs that were given the same number end together: then both triggers may start
/// again.
#[test]
fn starts_of_a_round_have_answers_of_their_own(rt: HostRuntime) -> Result<(), Fail> {
    check(
        &rt,
        rt.alloc(),
        &[
            Happens::Line(1, FIRST),
            Happens::Line(1, SECOND),
            Happens::Line(1, THIRD),
            Happens::Crawl("/r", Ok(A)),
            Happens::Round("/r", &[Some(7), None, Some(7)]),
            Happens::Crawl("/r", Ok(B)),
            Happens::Round("/r", &[Some(8)]),
            Happens::Ended(7),
            Happens::Round("/r", &[Some(9), Some(7)]),
        ],
        concat!(
            "1 {\"disposition\":\"created\",\"triggerid\":\"first\",\"version\":\"wq-1\"}\n",
            "1 {\"disposition\":\"created\",\"triggerid\":\"second\",\"version\":\"wq-1\"}\n",
            "1 {\"disposition\":\"created\",\"triggerid\":\"third\",\"version\":\"wq-1\"}\n",
            "start {\"args\":[\"r\",\"a\"],\"env\":{\"WATCHMAN_CLOCK\":\"c:7:9:1:1\",\"WATCHMAN_ROOT\":\"/r\",\"WATCHMAN_TRIGGER\":\"first\"},\"name\":\"first\",\"stdin\":\"\"}\n",
            "failed second\n",
            "start {\"args\":[\"r\",\"a\"],\"env\":{\"WATCHMAN_CLOCK\":\"c:7:9:1:1\",\"WATCHMAN_ROOT\":\"/r\",\"WATCHMAN_TRIGGER\":\"third\"},\"name\":\"third\",\"stdin\":\"\"}\n",
            "start {\"args\":[\"r\",\"b\"],\"env\":{\"WATCHMAN_CLOCK\":\"c:7:9:1:2\",\"WATCHMAN_ROOT\":\"/r\",\"WATCHMAN_TRIGGER\":\"second\"},\"name\":\"second\",\"stdin\":\"\"}\n",
            "start {\"args\":[\"r\",\"a\",\"b\"],\"env\":{\"WATCHMAN_CLOCK\":\"c:7:9:1:2\",\"WATCHMAN_ROOT\":\"/r\",\"WATCHMAN_SINCE\":\"c:7:9:1:1\",\"WATCHMAN_TRIGGER\":\"first\"},\"name\":\"first\",\"stdin\":\"\"}\n",
            "start {\"args\":[\"r\",\"a\",\"b\"],\"env\":{\"WATCHMAN_CLOCK\":\"c:7:9:1:2\",\"WATCHMAN_ROOT\":\"/r\",\"WATCHMAN_SINCE\":\"c:7:9:1:1\",\"WATCHMAN_TRIGGER\":\"third\"},\"name\":\"third\",\"stdin\":\"\"}\n",
        ),
    )
}

/// A trigger keeps the number of its last run until its next turn. If another start gets that number before, its command
/// counts as running. A start without an answer fails.
#[test]
fn a_number_that_comes_again_too_early_passes_over_a_trigger(rt: HostRuntime) -> Result<(), Fail> {
    check(
        &rt,
        rt.alloc(),
        &[
            Happens::Line(1, FIRST),
            Happens::Line(1, SECOND),
            Happens::Crawl("/r", Ok(A)),
            Happens::Round("/r", &[Some(7), Some(7)]),
            Happens::Crawl("/r", Ok(B)),
            Happens::Ended(7),
            Happens::Round("/r", &[Some(7), Some(8)]),
            Happens::Ended(7),
            Happens::Round("/r", &[]),
        ],
        concat!(
            "1 {\"disposition\":\"created\",\"triggerid\":\"first\",\"version\":\"wq-1\"}\n",
            "1 {\"disposition\":\"created\",\"triggerid\":\"second\",\"version\":\"wq-1\"}\n",
            "start {\"args\":[\"r\",\"a\"],\"env\":{\"WATCHMAN_CLOCK\":\"c:7:9:1:1\",\"WATCHMAN_ROOT\":\"/r\",\"WATCHMAN_TRIGGER\":\"first\"},\"name\":\"first\",\"stdin\":\"\"}\n",
            "start {\"args\":[\"r\",\"a\"],\"env\":{\"WATCHMAN_CLOCK\":\"c:7:9:1:1\",\"WATCHMAN_ROOT\":\"/r\",\"WATCHMAN_TRIGGER\":\"second\"},\"name\":\"second\",\"stdin\":\"\"}\n",
            "start {\"args\":[\"r\",\"a\",\"b\"],\"env\":{\"WATCHMAN_CLOCK\":\"c:7:9:1:2\",\"WATCHMAN_ROOT\":\"/r\",\"WATCHMAN_SINCE\":\"c:7:9:1:1\",\"WATCHMAN_TRIGGER\":\"first\"},\"name\":\"first\",\"stdin\":\"\"}\n",
            "failed second\n",
        ),
    )
}

/// A refused crawl counts only for the line directly after it. If a round, or the end of a run, comes between, it no
/// longer counts.
#[test]
fn a_round_follows_a_refused_crawl(rt: HostRuntime) -> Result<(), Fail> {
    let answer =
        "1 {\"clock\":\"c:7:9:1:0\",\"files\":[],\"is_fresh_instance\":true,\"version\":\"wq-1\"}\n";
    check(
        &rt,
        rt.alloc(),
        &[
            Happens::Crawl("/r", Err(CrawlFault::Tree(TreeFault::Unreadable))),
            Happens::Round("/r", &[]),
            Happens::Line(1, NAMES),
        ],
        answer,
    )?;
    check(
        &rt,
        rt.alloc(),
        &[
            Happens::Crawl("/r", Err(CrawlFault::Tree(TreeFault::Unreadable))),
            Happens::Ended(1),
            Happens::Line(1, NAMES),
        ],
        answer,
    )
}
