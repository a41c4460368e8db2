//! The lines of a script, and their meanings. Their effects are in `step`.
ghost use Rattle.std.specs.Prelude.{◌≡◌, option_map};
ghost use Rattle.wq_replay.specs.Script.{ask_of, fire_of, first_word, idle_from, is_client, kind_of_word, leave_from};
ghost use Rattle.wq_replay.specs.Script.{line_of, number_then, row_of};
ghost use Rattle.wq_replay.specs.LineData.{line_data};

use memchr::memchr;
use wq_base::signed_number;
use wq_view::Kind;

/// The meaning of a line of a script.
#[derive(Clone, Copy, Debug)]
pub(crate) enum Line<'a> {
    /// A listing begins, seen at this second of the Unix epoch. The root is crawled with it.
    Pass(i64),
    /// A listing begins of the files at this second, which no crawl has seen yet.
    Tree(i64),
    /// A row of the listing.
    Row(RowLine<'a>),
    /// The listing ends.
    End,
    /// A client sends a line.
    Ask(i64, &'a [u8]),
    /// A client leaves.
    Leave(i64),
    /// Nothing else happens for a while, and a client hears of changes.
    Idle(i64),
    /// The triggers of the root have a round, in which each start succeeds, or each fails.
    Fire(bool),
    /// The command of the trigger of this name has ended.
    Done(&'a [u8]),
}

/// A row of a listing, before any test of it.
#[derive(Clone, Copy, Debug)]
pub(crate) struct RowLine<'a> {
    pub(crate) kind: Kind,
    /// In bytes.
    pub(crate) size: i64,
    /// In milliseconds of the Unix epoch.
    pub(crate) mtime_ms: i64,
    pub(crate) name: &'a [u8],
}

/// The first words of lines.
const PASS: &[u8] = b"pass";

const TREE: &[u8] = b"tree";

const ASK: &[u8] = b"ask";

const LEAVE: &[u8] = b"leave";

const IDLE: &[u8] = b"idle";

const FIRE: &[u8] = b"fire";

const DONE: &[u8] = b"done";

const END: &[u8] = b"end";

/// The greatest number of a client.
const MAX_CLIENT: i64 = 32;

/// The meaning of a line, unless it is malformed.
pub(crate) fn read_line(text: &[u8]) -> Option<Line<'_>>
    ensures { option_map line_data result ≡ line_of text.now }
{
    if text == END {
        return Some(Line::End);
    }
    let (word, rest) = first_word(text)?;
    if word == PASS {
        Some(Line::Pass(signed_number(rest)?))
    } else if word == TREE {
        Some(Line::Tree(signed_number(rest)?))
    } else if word == ASK {
        ask(rest)
    } else if word == LEAVE {
        leave(signed_number(rest)?)
    } else if word == IDLE {
        idle(signed_number(rest)?)
    } else if word == FIRE {
        fire(rest)
    } else if word == DONE {
        Some(Line::Done(rest))
    } else {
        row(kind(word)?, rest)
    }
}

/// A client's line: the number of the client, and the line.
fn ask(text: &[u8]) -> Option<Line<'_>>
    ensures { option_map line_data result ≡ ask_of text.now }
{
    let (client, line) = number_then(text)?;
    if is_client(client) {
        Some(Line::Ask(client, line))
    } else {
        None
    }
}

/// The line that a client leaves.
fn leave<'a>(client: i64) -> Option<Line<'a>>
    ensures { option_map line_data result ≡ leave_from client }
{
    if is_client(client) {
        Some(Line::Leave(client))
    } else {
        None
    }
}

/// The line that nothing else happens for a while.
fn idle<'a>(client: i64) -> Option<Line<'a>>
    ensures { option_map line_data result ≡ idle_from client }
{
    if is_client(client) {
        Some(Line::Idle(client))
    } else {
        None
    }
}

/// A round, by the word that says whether each start succeeds.
fn fire<'a>(word: &[u8]) -> Option<Line<'a>>
    ensures { option_map line_data result ≡ fire_of word.now }
{
    match word {
        b"ok" => Some(Line::Fire(true)),
        b"fail" => Some(Line::Fire(false)),
        _ => None,
    }
}

/// Whether a number is one of a client.
fn is_client(number: i64) -> bool
    ensures { result ≡ is_client number }
{
    1 <= number && number <= MAX_CLIENT
}

/// A row of a kind: its size, its modification time and its name.
fn row(kind: Kind, text: &[u8]) -> Option<Line<'_>>
    ensures { option_map line_data result ≡ row_of kind text.now }
{
    let (size, text) = number_then(text)?;
    let (mtime_ms, name) = number_then(text)?;
    Some(Line::Row(RowLine {
        kind,
        size,
        mtime_ms,
        name,
    }))
}

/// The word before the first space, and the text after that space.
fn first_word(text: &[u8]) -> Option<(&[u8], &[u8])>
    ensures { option_map (λ w. (w.0.now, w.1.now)) result ≡ first_word text.now }
{
    let Some(at) = memchr(b' ', text) else {
        return None;
    };
    Some((&text[..at], &text[at + 1..]))
}

/// A number, and the text after the space that follows it.
fn number_then(text: &[u8]) -> Option<(i64, &[u8])>
    ensures { option_map (λ n. (n.0, n.1.now)) result ≡ number_then text.now }
{
    let (word, rest) = first_word(text)?;
    Some((signed_number(word)?, rest))
}

/// The kind that a word names by its letter.
fn kind(word: &[u8]) -> Option<Kind>
    ensures { result ≡ kind_of_word word.now }
{
    match word {
        [letter] => Kind::from_letter(*letter),
        _ => None,
    }
}
