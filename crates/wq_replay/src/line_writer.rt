//! The lines that are sent to clients. If a writer fails, it has written a front of a line.
ghost use Rattle.std.specs.Prelude.{◌≡◌, ◌++◌, ◌&&◌, None, Some, codes, map, List, OnErr, OnOk, ℕ};
ghost use Rattle.std.specs.Io.KnownBytes.{Appends};
ghost use Rattle.wq_base.specs.Writing.{WritesFront};
ghost use Rattle.wq_replay.specs.Replay.{sent_line};
ghost use Rattle.wq_replay.specs.Sending.{Sends, SendsAll, line_bytes};
ghost use Rattle.wq_replay.specs.Stands.{all_sent, sent_of};
ghost use Rattle.wq_replay.specs.Playing.{sent_for, sent_list, sent_to};
ghost use Rattle.wq_replay.specs.Rounds.{sent_note};

use crate::fault::StepFault;
use crate::sent::{Sent, SentLines};
use itoa::Buffer;
use std::alloc::Global;
use std::io;
use std::io::Write;
use wq_base::{Table, write_all};
use wq_reply::Alone;
use wq_session::{Line, ReplyLine};

/// Sends these lines to clients, and tells whether the server goes on.
pub(crate) fn send<W: Write>(
    alloc: Global,
    writer: &mut W,
    sent: &[Sent],
) -> Result<bool, StepFault>
    ensures { Sends (all_sent sent.now) (W.contents writer.old) (W.contents writer.new) result }
{
    let mut goes_on = true;
    for one in sent {
        let goes = send_one(alloc, writer, one)?;
        goes_on = both(goes_on, goes);
    }
    Ok(goes_on)
}

/// Whether both hold.
fn both(first: bool, second: bool) -> bool
    ensures { result ≡ (first && second) }
{
    first && second
}

/// Sends the lines for one happening, and tells whether the server goes on.
fn send_one<W: Write>(alloc: Global, writer: &mut W, sent: &Sent) -> Result<bool, StepFault>
    ensures { Sends (sent_of sent.now) (W.contents writer.old) (W.contents writer.new) result }
{
    match sent {
        Sent::ToClient(told) => send_told(alloc, writer, told),
        Sent::OfRound(lines) => {
            send_notes(writer, lines.as_slice())?;
            Ok(true)
        }
    }
}

/// Sends the lines of a round.
fn send_notes<W: Write>(writer: &mut W, lines: &[Table<u8>]) -> Result<(), StepFault>
    ensures { SendsAll (map sent_note lines.now)
        (W.contents writer.old) (W.contents writer.new) result }
{
    for line in lines {
        send_note(writer, line.as_slice())?;
    }
    Ok(())
}

/// Writes a line about a start: a text with its newline.
fn send_note<W: Write>(writer: &mut W, text: &[u8]) -> io::Result<()>
    ensures done { OnOk result
        (Appends (W.contents writer.old) (W.contents writer.new) (sent_line None text.now)) }
    ensures front { OnErr result
        (WritesFront (W.contents writer.old) (W.contents writer.new) (sent_line None text.now)) }
{
    write_all(writer, text)?;
    write_all(writer, b"\n")
}

/// Sends a reply, if there is one, and the lists that follow it, and tells whether the server goes on.
fn send_told<W: Write>(alloc: Global, writer: &mut W, told: &SentLines) -> Result<bool, StepFault>
    ensures { Sends (sent_to told.now.client told.now.out)
        (W.contents writer.old) (W.contents writer.new) result }
{
    let goes_on = send_reply(alloc, writer, told)?;
    send_lists(alloc, writer, told, told.out.lists())?;
    Ok(goes_on)
}

/// Sends a reply, if there is one, and tells whether the server goes on.
fn send_reply<W: Write>(alloc: Global, writer: &mut W, told: &SentLines) -> Result<bool, StepFault>
    ensures { Sends (sent_for told.now.client told.now.out.shuts told.now.out.reply)
        (W.contents writer.old) (W.contents writer.new) result }
{
    let line = told.out.line();
    if line.is_none() {
        return Ok(true);
    }
    send_line(alloc, writer, told.client, line)?;
    Ok(!told.out.shuts())
}

/// Sends these lists to a client.
fn send_lists<W: Write>(
    alloc: Global,
    writer: &mut W,
    told: &SentLines,
    lists: &[Line],
) -> Result<(), StepFault>
    ensures { SendsAll (map (sent_list told.now.client) lists.now)
        (W.contents writer.old) (W.contents writer.new) result }
{
    for list in lists {
        send_line(
            alloc,
            writer,
            told.client,
            ReplyLine::Whole(list.as_bytes()),
        )?;
    }
    Ok(())
}

/// Writes a line to a client: its number, a space, and a text with its newline.
fn send_line<W: Write>(
    alloc: Global,
    writer: &mut W,
    client: i64,
    line: ReplyLine<'_>,
) -> io::Result<()>
    ensures done { (text : List ℕ) → line_bytes line.entry ≡ text ++ codes "\n" → OnOk result
        (Appends (W.contents writer.old) (W.contents writer.new) (sent_line (Some client) text)) }
    ensures front { (text : List ℕ) → line_bytes line.entry ≡ text ++ codes "\n" → OnErr result
        (WritesFront (W.contents writer.old) (W.contents writer.new)
        (sent_line (Some client) text)) }
{
    write_all(writer, Buffer::new().format(client).as_bytes())?;
    write_all(writer, b" ")?;
    write_line(alloc, writer, line)
}

/// Writes the line of a reply, if there is one.
#[tactic(auto, using(wq_base::proofs::Fronts::appends_none))]
fn write_line<W: Write>(alloc: Global, writer: &mut W, line: ReplyLine<'_>) -> io::Result<()>
    ensures done { OnOk result
        (Appends (W.contents writer.old) (W.contents writer.new) (line_bytes line.entry)) }
    ensures front { OnErr result
        (WritesFront (W.contents writer.old) (W.contents writer.new) (line_bytes line.entry)) }
{
    match line {
        ReplyLine::None => Ok(()),
        ReplyLine::Whole(line) => write_all(writer, line),
        ReplyLine::Long(reply) => reply.write_line(&Alone {}, alloc, writer),
    }
}
