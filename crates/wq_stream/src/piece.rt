//! The events that a piece of a stream adds to it. The functions take all memory first, and change
//! the rest last.
ghost use Rattle.std.specs.Prelude.{true, ◌≡◌, ◌+◌, ◌≤◌, [], ◌∷◌, ◌++◌, length, IfOk, IfSome, OnErr, option_map};
ghost use Rattle.wq_stream.specs.Limit.{max_line};
ghost use Rattle.wq_stream.specs.Stream.{IsRest, events_of, kept_of};
ghost use Rattle.wq_stream.specs.Told.{Tells, kept_as};

use crate::event::Event;
use crate::line::{FirstLine, first_line};
use std::alloc::{AllocError, Global};
use wq_base::Table;

/// The events that a piece added.
#[derive(Drop)]
pub(crate) struct Told {
    /// The events, in their order.
    pub(crate) events: Vec<Event>,
    /// Whether no event follows.
    pub(crate) has_ended: bool,
}

/// Takes a piece after the rest of a stream. If memory runs out, the rest does not change.
pub(crate) fn take_piece(rest: &mut Vec<u8>, piece: &[u8]) -> Result<Told, AllocError>
    requires { IsRest rest.old.items }
    ensures told { IfOk result (λ told. Tells (rest.old.items ++ piece.now) told rest.new.items) }
    ensures refused { OnErr result (rest.new.items ≡ rest.old.items) }
{
    let alloc = *rest.allocator();
    match first_line(rest, piece) {
        FirstLine::Ends(at) => end_line(alloc, rest, &piece[..at], &piece[at + 1..]),
        FirstLine::Open => {
            rest.extend_from_slice(piece)?;
            Ok(Told {
                events: Vec::new(alloc),
                has_ended: false,
            })
        }
        FirstLine::Long => end(alloc, rest, Event::Long),
        FirstLine::Binary => end(alloc, rest, Event::Binary),
    }
}

/// Returns the line of a rest and some bytes, and the events of the bytes after it.
fn end_line(
    alloc: Global,
    rest: &mut Vec<u8>,
    end: &[u8],
    behind: &[u8],
) -> Result<Told, AllocError>
    requires { length rest.old.items + length end.now ≤ max_line }
    ensures told { IfOk result (λ told. (told.events.items
        ≡ Event.Line (rest.old.items ++ end.now) ∷ events_of behind.now)
        × (kept_as told.has_ended rest.new.items ≡ kept_of behind.now)
        × IsRest rest.new.items) }
    ensures refused { OnErr result (rest.new.items ≡ rest.old.items) }
{
    let mut events = Vec::new(alloc);
    events.push(Event::Line(joined(alloc, rest, end)?))?;
    match split(alloc, &mut events, behind)? {
        Some(left) => {
            *rest = Vec::from_slice(alloc, left)?;
            Ok(Told {
                events,
                has_ended: false,
            })
        }
        None => {
            *rest = Vec::new(alloc);
            Ok(Told {
                events,
                has_ended: true,
            })
        }
    }
}

/// Ends the stream with this event, and empties the rest.
fn end(alloc: Global, rest: &mut Vec<u8>, event: Event) -> Result<Told, AllocError>
    ensures told { IfOk result (λ told. (told.events.items ≡ event ∷ [])
        × (told.has_ended ≡ true) × (rest.new.items ≡ [])) }
    ensures refused { OnErr result (rest.new.items ≡ rest.old.items) }
{
    let mut events = Vec::new(alloc);
    events.push(event)?;
    *rest = Vec::new(alloc);
    Ok(Told {
        events,
        has_ended: true,
    })
}

/// The line of a rest and the bytes up to a newline.
fn joined(alloc: Global, rest: &[u8], end: &[u8]) -> Result<Table<u8>, AllocError>
    requires { length rest.now + length end.now ≤ max_line }
    ensures { IfOk result (λ line. line ≡ rest.now ++ end.now) }
{
    let mut line = Vec::with_capacity(alloc, rest.len() + end.len())?;
    line.extend_from_slice(rest)?;
    line.extend_from_slice(end)?;
    Ok(Table::from_vec(line))
}

/// Adds the events of bytes at which a line begins to others, and returns the rest of the bytes.
fn split<'a>(
    alloc: Global,
    events: &mut Vec<Event>,
    bytes: &'a [u8],
) -> Result<Option<&'a [u8]>, AllocError>
    ensures told { IfOk result (λ _. events.new.items ≡ events.old.items ++ events_of bytes.now) }
    ensures kept { IfOk result (λ rest. option_map (λ left. left.now) rest ≡ kept_of bytes.now) }
    ensures is_rest { IfOk result (λ rest. IfSome rest (λ left. IsRest left.now)) }
{
    let mut left = bytes;
    loop {
        match first_line(&[], left) {
            FirstLine::Ends(at) => {
                let line = Vec::from_slice(alloc, &left[..at])?;
                events.push(Event::Line(Table::from_vec(line)))?;
                left = &left[at + 1..];
            }
            FirstLine::Open => return Ok(Some(left)),
            FirstLine::Long => {
                events.push(Event::Long)?;
                return Ok(None);
            }
            FirstLine::Binary => {
                events.push(Event::Binary)?;
                return Ok(None);
            }
        }
    }
}
