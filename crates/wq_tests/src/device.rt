//! Replays with readers and writers that fail at each of their calls, and lines at the limit.

use std::alloc::Global;
use std::io::{self, BufRead, ErrorKind, Read, Write};
use std::process::Abort;
use std::test::Fail;
use wq_replay::{MAX_SCRIPT_LINE, ReplayFault, replay};

const SCRIPT: &[u8] =
    b"pass 1\nf 1 1 a\nend\nask 1 [\"query\",\"/r\",{\"fields\":[\"name\"]}]\nask 2 x\n";

const WRITTEN: &[u8] =
    b"1 {\"clock\":\"c:7:9:1:1\",\"files\":[\"a\"],\"is_fresh_instance\":true,\"version\":\"wq-1\"}\n2 {\"error\":\"E2: not JSON\",\"version\":\"wq-1\"}\n";

/// The number of a call that no device reaches.
const NEVER: usize = 0;

/// Gives a text in pieces of four bytes, and fails at the call of this number.
#[derive(Drop)]
struct Broken {
    left: &'static [u8],
    calls: usize,
    fails_at: usize,
    fault: ErrorKind,
}

impl Read for Broken {
    fn read(&mut self, _buf: &mut [u8]) -> io::Result<usize> {
        Err(io::Error::from(ErrorKind::Unsupported))
    }
}

impl BufRead for Broken {
    fn fill_buf(&mut self) -> io::Result<&[u8]> {
        self.calls = self.calls.saturating_add(1);
        if self.calls == self.fails_at {
            return Err(io::Error::from(self.fault));
        }
        Ok(&self.left[..self.left.len().min(4)])
    }

    fn consume(&mut self, amount: usize) {
        self.left = &self.left[amount.min(self.left.len())..];
    }
}

/// Keeps the bytes that are written, at most three for each call, and fails at the call of this
/// number.
#[derive(Drop)]
struct Full {
    kept: Vec<u8>,
    calls: usize,
    fails_at: usize,
}

impl Write for Full {
    fn write(&mut self, buf: &[u8]) -> io::Result<usize> {
        self.calls = self.calls.saturating_add(1);
        if self.calls == self.fails_at {
            return Err(io::Error::from(ErrorKind::BrokenPipe));
        }
        self.kept.write(&buf[..buf.len().min(3)])
    }

    fn flush(&mut self) -> io::Result<()> {
        Ok(())
    }
}

/// A replay of the script: its end, the bytes that it wrote, and how often it called each device.
#[derive(Drop)]
struct Outcome {
    ended: Result<(), ReplayFault>,
    written: Vec<u8>,
    reads: usize,
    writes: usize,
}

/// Replays the script with a reader that fails so at one call, and a writer that fails at another.
fn play(alloc: Global, read_fails: usize, fault: ErrorKind, write_fails: usize) -> Outcome {
    let mut reader = Broken {
        left: SCRIPT,
        calls: 0,
        fails_at: read_fails,
        fault,
    };
    let mut writer = Full {
        kept: Vec::new(alloc),
        calls: 0,
        fails_at: write_fails,
    };
    let ended = replay(alloc, &mut reader, &mut writer);
    Outcome {
        ended,
        written: writer.kept,
        reads: reader.calls,
        writes: writer.calls,
    }
}

/// Asserts the end of a replay, and that its output is a front of the full output.
fn check(rt: &impl Abort, outcome: &Outcome, ended: Result<(), ReplayFault>, call: usize) {
    assert_eq!(rt; outcome.ended, ended, "at call {call}");
    assert!(rt; WRITTEN.starts_with(&outcome.written), "at call {call}");
}

#[test]
fn devices_that_work_give_each_reply(rt: HostRuntime) {
    let outcome = play(rt.alloc(), NEVER, ErrorKind::BrokenPipe, NEVER);
    check(&rt, &outcome, Ok(()), NEVER);
    assert_eq!(rt; outcome.written.as_slice(), WRITTEN);
    // Each byte of the script, and each byte that is written, takes a part of a call.
    assert!(rt; outcome.reads > SCRIPT.len() / 4 && outcome.writes > WRITTEN.len() / 3);
}

#[test]
fn tells_a_reader_that_fails_at_any_call(rt: HostRuntime) {
    let calls = play(rt.alloc(), NEVER, ErrorKind::BrokenPipe, NEVER).reads;
    for call in 1..=calls {
        let outcome = play(rt.alloc(), call, ErrorKind::BrokenPipe, NEVER);
        check(&rt, &outcome, Err(ReplayFault::Read), call);
    }
}

#[test]
fn tells_a_writer_that_fails_at_any_call(rt: HostRuntime) {
    let calls = play(rt.alloc(), NEVER, ErrorKind::BrokenPipe, NEVER).writes;
    for call in 1..=calls {
        let outcome = play(rt.alloc(), NEVER, ErrorKind::BrokenPipe, call);
        check(&rt, &outcome, Err(ReplayFault::Write), call);
    }
}

/// If a signal interrupts a read, the replay tries it again.
#[test]
fn reads_on_where_a_read_is_interrupted(rt: HostRuntime) {
    let calls = play(rt.alloc(), NEVER, ErrorKind::Interrupted, NEVER).reads;
    for call in 1..=calls {
        let outcome = play(rt.alloc(), call, ErrorKind::Interrupted, NEVER);
        check(&rt, &outcome, Ok(()), call);
        assert_eq!(rt; outcome.written.as_slice(), WRITTEN, "at call {call}");
    }
}

/// Gives one byte over and over, and counts how many of it are taken.
#[derive(Drop)]
struct Endless {
    taken: usize,
}

impl Read for Endless {
    fn read(&mut self, _buf: &mut [u8]) -> io::Result<usize> {
        Err(io::Error::from(ErrorKind::Unsupported))
    }
}

impl BufRead for Endless {
    fn fill_buf(&mut self) -> io::Result<&[u8]> {
        Ok(b"xxxxxxx")
    }

    fn consume(&mut self, amount: usize) {
        self.taken = self.taken.saturating_add(amount);
    }
}

/// From a line without an end, the replay takes only enough bytes to show that it is too long.
#[test]
fn ends_at_a_line_without_an_end(rt: HostRuntime) {
    let mut reader = Endless { taken: 0 };
    let mut writer = Vec::new(rt.alloc());
    let ended = replay(rt.alloc(), &mut reader, &mut writer);
    assert_eq!(rt; ended, Err(ReplayFault::Line(1)));
    assert_eq!(rt; reader.taken, MAX_SCRIPT_LINE + 1);
}

/// Replays a script of one line of so many bytes, which a client sends.
fn play_line(alloc: Global, length: usize) -> Result<(Vec<u8>, Result<(), ReplayFault>), Fail> {
    let mut script = Vec::from_slice(alloc, b"ask 1 ")?;
    script.resize(length, b'x')?;
    let mut reader = script.as_slice();
    let mut writer = Vec::new(alloc);
    let ended = replay(alloc, &mut reader, &mut writer);
    Ok((writer, ended))
}

/// A line at the limit is answered, and a line of one byte more ends the replay.
#[test]
fn takes_script_lines_up_to_the_limit(rt: HostRuntime) -> Result<(), Fail> {
    let (written, ended) = play_line(rt.alloc(), MAX_SCRIPT_LINE)?;
    let too_long = b"1 {\"error\":\"E1: line too long\",\"version\":\"wq-1\"}\n".as_slice();
    assert_eq!(rt; written.as_slice(), too_long);
    assert_eq!(rt; ended, Ok(()));
    Ok(())
}

#[test]
fn refuses_a_script_line_of_a_byte_more(rt: HostRuntime) -> Result<(), Fail> {
    let (written, ended) = play_line(rt.alloc(), MAX_SCRIPT_LINE + 1)?;
    assert!(rt; written.is_empty());
    assert_eq!(rt; ended, Err(ReplayFault::Line(1)));
    Ok(())
}
